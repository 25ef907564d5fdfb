// Goals, below their lines.
ghost use Rattle.std.specs.Prelude.{◌≡◌, ◌++◌, IfOk, map, option_map, slice_get};
ghost use Rattle.report_read.specs.View.{bytes_of, view_goal};
ghost use Rattle.report_read.specs.Bytes.{joined};
ghost use Rattle.report_shown.specs.View.{view_goals, view_list};
ghost use Rattle.view_text.specs.Text as spec;

use crate::formula::put_formula;
use crate::pieces::{MARGIN, put_line};
use qed_terms::Verdict;
use report_read::{Goal, is_proved, verdict_name};
use report_shown::{put, put_number};
use wp_base::NoMemory;

fn color_text(verdict: Verdict) -> &'static [u8]
    ensures { result.now ≡ spec.color_text verdict }
{
    if is_proved(verdict) {
        b"\x1b[32m"
    } else {
        b"\x1b[31m"
    }
}

#[tactic(auto, using(report_shown::proofs::Joined::three_put))]
fn put_verdict(text: &mut Vec<u8>, color: bool, verdict: Verdict) -> Result<(), NoMemory>
    ensures { IfOk result (λ _. text.new.items ≡ text.old.items ++ spec.verdict_text color verdict) }
{
    if !color {
        return put(text, verdict_name(verdict));
    }
    put(text, color_text(verdict))?;
    put(text, verdict_name(verdict))?;
    put(text, b"\x1b[0m")
}

fn put_name(text: &mut Vec<u8>, goal: &Goal) -> Result<(), NoMemory>
    ensures { IfOk result (λ _. text.new.items ≡ text.old.items ++ spec.goal_name (view_goal goal.now)) }
{
    put(text, MARGIN)?;
    put(text, goal.function)?;
    put(text, b" ")?;
    put_number(text, goal.number)?;
    put(text, b" ")?;
    put(text, goal.check)?;
    put(text, b": ")
}

fn put_some(text: &mut Vec<u8>, formula: Option<&[u8]>) -> Result<(), NoMemory>
    ensures { IfOk result (λ _. text.new.items ≡ text.old.items ++ spec.some_formula (option_map bytes_of formula.entry)) }
{
    match formula {
        Some(formula) => put_formula(text, formula),
        None => Ok(()),
    }
}

/// Puts a goal: what it is, its verdict, and its formula where the report shows it.
fn put_goal(text: &mut Vec<u8>, color: bool, goal: &Goal) -> Result<(), NoMemory>
    ensures { IfOk result (λ _. text.new.items ≡ text.old.items ++ spec.goal_text color (view_goal goal.now)) }
{
    put_name(text, goal)?;
    put_verdict(text, color, goal.verdict)?;
    put_some(text, goal.formula)?;
    put(text, b"\n")
}

#[tactic(auto, using(report_shown::proofs::Joined::joined_more, report_shown::proofs::Joined::joined_end), unfolding(crate::specs::Text::goals_text))]
fn put_goals(text: &mut Vec<u8>, color: bool, goals: &[Goal]) -> Result<(), NoMemory>
    ensures { IfOk result (λ _. text.new.items ≡ text.old.items ++ spec.goals_text color (view_goals goals.now)) }
{
    for goal in goals {
        put_goal(text, color, goal)?;
    }
    Ok(())
}

// Puts the goals of the list at this place, if there is one.
fn put_goals_at(
    text: &mut Vec<u8>,
    color: bool,
    lists: &[Vec<Goal>],
    index: usize,
) -> Result<(), NoMemory>
    ensures { IfOk result (λ _. text.new.items ≡ text.old.items ++ spec.some_goals color (option_map view_list (slice_get lists.now index))) }
{
    match lists.get(index) {
        Some(goals) => put_goals(text, color, goals.as_slice()),
        None => Ok(()),
    }
}

/// Puts the lines of the source, each with the goals of the list beside it.
#[tactic(auto, using(crate::proofs::Lines::line_end))]
pub fn put_source(
    text: &mut Vec<u8>,
    color: bool,
    lines: &[&[u8]],
    lists: &[Vec<Goal>],
) -> Result<(), NoMemory>
    ensures { IfOk result (λ _. text.new.items ≡ text.old.items ++ spec.source_text color 1 (map bytes_of lines.now) (map view_list lists.now)) }
{
    for (index, line) in lines.iter().enumerate() {
        put_line(text, index + 1, *line)?;
        put_goals_at(text, color, lists, index)?;
    }
    Ok(())
}

#[tactic(auto, using(crate::proofs::Putting::missing_put))]
fn put_missing(text: &mut Vec<u8>, line: u32) -> Result<(), NoMemory>
    ensures { IfOk result (λ _. text.new.items ≡ text.old.items ++ spec.missing_line line) }
{
    put(text, MARGIN)?;
    put(text, b"line ")?;
    put_number(text, line)?;
    put(text, b", which the source hasn't:\n")
}

/// Puts goals that stand on lines that the source hasn't.
#[tactic(auto, using(crate::proofs::Lines::missing_more, report_shown::proofs::Joined::joined_end))]
pub fn put_elsewhere(text: &mut Vec<u8>, color: bool, goals: &[Goal]) -> Result<(), NoMemory>
    ensures { IfOk result (λ _. text.new.items ≡ text.old.items ++ joined (map (spec.missing_text color) (view_goals goals.now))) }
{
    for goal in goals {
        put_missing(text, goal.line)?;
        put_goal(text, color, goal)?;
    }
    Ok(())
}
