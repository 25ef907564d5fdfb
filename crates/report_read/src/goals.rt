// The lines of a report.
ghost use Rattle.std.specs.Prelude.{◌≡◌};
ghost use Rattle.goal_words.specs.Views.{FindsWord};
ghost use Rattle.report_read.specs.Read as spec;
ghost use Rattle.report_read.specs.View.{Reads, view_goal, view_refusal, word_and_number};

use crate::bytes::{after, until};
use crate::report::{Goal, Refusal};
use goal_words::count;
use qed_terms::Verdict;

fn number_until(end: u8, bytes: &[u8]) -> Option<(u32, &[u8])>
    ensures { Reads (λ n. n) result (spec.number_until end bytes.now) }
{
    let (word, rest) = until(end, bytes)?;
    let number = count(word)?;
    Some((number, rest))
}

/// A line that names a global to which no pointer is taken to point.
#[tactic(auto, unfolding(crate::specs::Read::hypothesis_at))]
pub fn hypothesis_at(bytes: &[u8]) -> Option<(&[u8], &[u8])>
    ensures { FindsWord result (spec.hypothesis_at bytes.now) }
{
    let rest = after(b"hypothesis no pointer to ", bytes)?;
    until(b'\n', rest)
}

/// A line that tells of an ignored `\from`.
#[tactic(auto, unfolding(crate::specs::Read::ignored_at))]
pub fn ignored_at(bytes: &[u8]) -> Option<(u32, &[u8])>
    ensures { Reads (λ n. n) result (spec.ignored_at bytes.now) }
{
    let rest = after(b"ignored from line ", bytes)?;
    number_until(b'\n', rest)
}

fn verdict_of(word: &[u8]) -> Option<Verdict>
    ensures { result ≡ spec.verdict_of word.now }
{
    if word == b"proved".as_slice() {
        Some(Verdict::Proved)
    } else if word == b"unknown open".as_slice() {
        Some(Verdict::Open)
    } else if word == b"unknown branches".as_slice() {
        Some(Verdict::Branches)
    } else if word == b"unknown size".as_slice() {
        Some(Verdict::Size)
    } else {
        None
    }
}

fn verdict_at(bytes: &[u8]) -> Option<(Verdict, &[u8])>
    ensures { Reads (λ v. v) result (spec.verdict_at bytes.now) }
{
    let (word, rest) = until(b'\n', bytes)?;
    let verdict = verdict_of(word)?;
    Some((verdict, rest))
}

// `goal FUNCTION NUMBER `
#[tactic(auto, unfolding(crate::specs::Read::name_at))]
fn name_at(bytes: &[u8]) -> Option<((&[u8], u32), &[u8])>
    ensures { Reads word_and_number result (spec.name_at bytes.now) }
{
    let rest = after(b"goal ", bytes)?;
    let (function, rest) = until(b' ', rest)?;
    let (number, rest) = number_until(b' ', rest)?;
    Some(((function, number), rest))
}

// `CHECK line L `
#[tactic(auto, unfolding(crate::specs::Read::place_at))]
fn place_at(bytes: &[u8]) -> Option<((&[u8], u32), &[u8])>
    ensures { Reads word_and_number result (spec.place_at bytes.now) }
{
    let (check, rest) = until(b' ', bytes)?;
    let rest = after(b"line ", rest)?;
    let (line, rest) = number_until(b' ', rest)?;
    Some(((check, line), rest))
}

#[tactic(auto, unfolding(crate::specs::Read::head_at))]
fn head_at(bytes: &[u8]) -> Option<(Goal<'_>, &[u8])>
    ensures { Reads view_goal result (spec.head_at bytes.now) }
{
    let ((function, number), rest) = name_at(bytes)?;
    let ((check, line), rest) = place_at(rest)?;
    let (verdict, rest) = verdict_at(rest)?;
    let goal = Goal {
        function,
        number,
        check,
        line,
        verdict,
        formula: None,
    };
    Some((goal, rest))
}

#[tactic(auto, unfolding(crate::specs::Read::formula_at))]
fn formula_at(bytes: &[u8]) -> Option<(&[u8], &[u8])>
    ensures { FindsWord result (spec.formula_at bytes.now) }
{
    let rest = after(b"  ", bytes)?;
    let (formula, rest) = until(b'\n', rest)?;
    if formula.is_empty() {
        return None;
    }
    Some((formula, rest))
}

/// A goal's line, and its formula where that stands below.
#[tactic(auto, unfolding(crate::specs::Read::goal_at))]
pub fn goal_at(bytes: &[u8]) -> Option<(Goal<'_>, &[u8])>
    ensures { Reads view_goal result (spec.goal_at bytes.now) }
{
    let (goal, rest) = head_at(bytes)?;
    match formula_at(rest) {
        Some((formula, rest)) => Some((
            Goal {
                formula: Some(formula),
                ..goal
            },
            rest,
        )),
        None => Some((goal, rest)),
    }
}

/// The line that refuses a text.
#[tactic(auto, unfolding(crate::specs::Read::refusal_at))]
pub fn refusal_at(bytes: &[u8]) -> Option<(Refusal<'_>, &[u8])>
    ensures { Reads view_refusal result (spec.refusal_at bytes.now) }
{
    let rest = after(b"refused line ", bytes)?;
    let (line, rest) = number_until(b':', rest)?;
    let rest = after(b" ", rest)?;
    let (number, rest) = number_until(b' ', rest)?;
    let (rule, rest) = until(b'\n', rest)?;
    Some((Refusal { line, number, rule }, rest))
}
