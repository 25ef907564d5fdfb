// The lines of a text, and the answer to it.
ghost use Rattle.std.specs.Prelude.{◌≡◌, ◌++◌, ◌<◌, ℕ, List, ◌∷◌, [], Bool, IfOk, OnOk, Err, length};
ghost use Rattle.qed_terms.specs.View.{formula_tree};
ghost use Rattle.c_kinds.specs.Models.{long_bits};
ghost use Rattle.qed_simplify.specs.Normal.{plain};
ghost use Rattle.prover.specs.Prover.{IsProverVerdict};
ghost use Rattle.wp_words.specs.CommandView.{view_wanted};
ghost use Rattle.wpgoal_cli.specs.Lines.{Answers, AnswersLine, IsLine, IsNoFormula, IsNormalLine, IsTextOf, IsVerdictLine, no_goal_line, text_behind};
ghost use Rattle.wpgoal_cli.specs.View.{view_wish};

use crate::formulas::{formula_text, read_formula};
use crate::words::Wish;
use c_kinds::Machdep;
use goal_text::GoalText;
use itoa::Buffer;
use prover::prove;
use qed_simplify::{normal_plain, plain_setting};
use qed_terms::{Formula, Verdict};
use report_read::verdict_name;
use std::alloc::Global;
use wp_base::{NoMemory, Status, Str};
use wp_words::Wanted;

/// How a run ends, and what it writes.
#[derive(Drop)]
pub struct Answer {
    pub status: Status,
    pub text: Str,
}

// The first line of a text, and what stands behind it.
#[tactic(auto, using(crate::proofs::Places::no_newline, crate::proofs::Places::line_found, crate::proofs::Places::line_whole))]
fn first_line(text: &[u8]) -> (&[u8], &[u8])
    ensures { IsLine result.0.now text.now result.1.now }
{
    let mut at = 0;
    while at < text.len() {
        if text[at] == b'\n' {
            return (&text[..at], &text[at + 1..]);
        }
        at += 1;
    }
    (text, &[])
}

// The text of its normal form. The words don't say how wide `long` is: it has 64 bits.
fn normal_text(alloc: Global, formula: Formula) -> Result<Str, NoMemory>
    ensures { (line : List ℕ) → IsTextOf line (formula_tree formula) → IfOk result (λ text. IsNormalLine line text) }
{
    let normal = normal_plain(alloc, &formula)?;
    let text = formula_text(alloc, normal)?;
    Ok(text)
}

fn width(model: Machdep) -> u8
    ensures { result ≡ long_bits model }
{
    match model {
        Machdep::X86_32 => 32,
        Machdep::X86_64 => 64,
    }
}

// The prover's verdict, in the setting of a data model, without logic functions.
fn verdict_on(
    alloc: Global,
    model: Machdep,
    wanted: Wanted,
    formula: &Formula,
) -> Result<Verdict, NoMemory>
    ensures { IfOk result (λ verdict. IsProverVerdict (plain (long_bits model)) wanted.fuel wanted.branches (formula_tree formula.now) verdict) }
{
    let setting = plain_setting(alloc, width(model));
    let verdict = prove(alloc, formula, wanted.fuel, wanted.branches, &setting)?;
    Ok(verdict)
}

// Behind the verdict the formula's own text on a line of its own, where it is wanted.
fn put_behind(
    alloc: Global,
    out: &mut Vec<u8>,
    shows: bool,
    formula: Formula,
) -> Result<(), NoMemory>
    ensures { OnOk result (out.new.items ≡ out.old.items ++ text_behind shows (formula_tree formula)) }
{
    if !shows {
        return Ok(());
    }
    let text = formula_text(alloc, formula)?;
    out.push(b'\n')?;
    out.extend_from_slice(text.bytes())?;
    Ok(())
}

// The verdict on it.
fn verdict_text(
    alloc: Global,
    model: Machdep,
    wanted: Wanted,
    formula: Formula,
) -> Result<Str, NoMemory>
    ensures { (line : List ℕ) → IsTextOf line (formula_tree formula) → IfOk result (λ text. IsVerdictLine model (view_wanted wanted) line text) }
{
    let verdict = verdict_on(alloc, model, wanted, &formula)?;
    let mut out = Vec::new(alloc);
    out.extend_from_slice(verdict_name(verdict))?;
    put_behind(alloc, &mut out, wanted.shows_goals, formula)?;
    Ok(Str::from_vec(out))
}

fn wished_text(alloc: Global, wish: Wish, formula: Formula) -> Result<Str, NoMemory>
    ensures { (line : List ℕ) → IsTextOf line (formula_tree formula) → IfOk result (λ text. AnswersLine (view_wish wish) line text) }
{
    match wish {
        Wish::Normal => normal_text(alloc, formula),
        Wish::Verdict(model, wanted) => verdict_text(alloc, model, wanted, formula),
    }
}

// The answer to a line.
fn line_text(alloc: Global, wish: Wish, line: &[u8]) -> Result<Str, GoalText>
    ensures answered { IfOk result (λ text. AnswersLine (view_wish wish) line.now text) }
    ensures none { result ≡ Err GoalText.NotAGoal → IsNoFormula line.now }
{
    match read_formula(alloc, line) {
        Ok(formula) => {
            let text = wished_text(alloc, wish, formula)?;
            Ok(text)
        }
        Err(end) => Err(end),
    }
}

fn put_line(out: &mut Vec<u8>, text: &[u8]) -> Result<(), NoMemory>
    ensures { IfOk result (λ _. out.new.items ≡ out.old.items ++ (text.now ++ 10 ∷ [])) }
{
    out.extend_from_slice(text)?;
    out.push(b'\n')?;
    Ok(())
}

// The answer where a line is no formula.
fn no_goal(alloc: Global, line: usize) -> Result<Str, NoMemory>
    ensures { IfOk result (λ text. text ≡ no_goal_line line) }
{
    let mut text = Vec::new(alloc);
    let mut buffer = Buffer::new();
    text.extend_from_slice(b"not a goal line ")?;
    text.extend_from_slice(buffer.format(line).as_bytes())?;
    text.push(b'\n')?;
    Ok(Str::from_vec(text))
}

/// The answer to a text, line by line: each formula's normal form, or the verdict on it; or that a line is none.
#[tactic(auto, using(crate::proofs::Gathered::line_answered, crate::proofs::Gathered::fewer_left, crate::proofs::Gathered::text_refused, crate::proofs::Gathered::text_done))]
pub fn text_answer(alloc: Global, wish: Wish, text: &[u8]) -> Result<Answer, NoMemory>
    ensures { IfOk result (λ answer. Answers (view_wish wish) text.now answer.status answer.text) }
{
    let mut out = Vec::new(alloc);
    let mut lines = 0;
    let mut left = text;
    while !left.is_empty() {
        let (line, behind) = first_line(left);
        lines += 1;
        match line_text(alloc, wish, line) {
            Ok(text) => put_line(&mut out, text.bytes())?,
            Err(GoalText::NotAGoal) => {
                return Ok(Answer {
                    status: Status::Refused,
                    text: no_goal(alloc, lines)?,
                });
            }
            Err(GoalText::NoMemory) => return Err(NoMemory),
        }
        left = behind;
    }
    Ok(Answer {
        status: Status::AllProved,
        text: Str::from_vec(out),
    })
}
