// The goals of a line, folded below it.
ghost use Rattle.std.specs.Prelude.{◌≡◌, ◌++◌, IfOk};
ghost use Rattle.std.specs.List.{flat_map};
ghost use Rattle.report_read.specs.Report.{unknown_in as count_unknown};
ghost use Rattle.report_read.specs.View.{view_goal};
ghost use Rattle.report_page.specs.Markup.{texts};
ghost use Rattle.report_page.specs.Page as spec;
ghost use Rattle.report_shown.specs.View.{view_goals};

use crate::markup::{NEWLINE, NOTHING, Text, put_pieces};
use crate::tags::goal_tag;
use report_read::{Goal, proved_in, verdict_name};
use std::alloc::Global;
use wp_base::NoMemory;

/// How many goals aren't proved.
#[tactic(auto, using(crate::proofs::Counts::unknown_left))]
pub fn unknown_in(goals: &[Goal]) -> usize
    ensures { result ≡ count_unknown (view_goals goals.now) }
{
    goals.len() - proved_in(goals)
}

#[tactic(auto, unfolding(crate::specs::Page::goal_pieces))]
fn put_goal(alloc: Global, page: &mut Vec<u8>, goal: &Goal) -> Result<(), NoMemory>
    ensures { IfOk result (λ _. page.new.items ≡ page.old.items ++ texts (spec.goal_pieces (view_goal goal.now))) }
{
    let number = Text::Number(u64::from(goal.number));
    let verdict = Text::Bytes(verdict_name(goal.verdict));
    let formula = Text::Bytes(goal.formula.unwrap_or(b""));
    put_pieces(
        alloc,
        page,
        &[
            (goal_tag(goal.verdict), NOTHING),
            (b"td", Text::Bytes(goal.function)),
            (b"td", number),
            (b"td", Text::Bytes(goal.check)),
            (b"td", verdict),
            (b"td", formula),
            (b"/tr", NEWLINE),
        ],
    )
}

fn put_rows(alloc: Global, page: &mut Vec<u8>, goals: &[Goal]) -> Result<(), NoMemory>
    ensures { IfOk result (λ _. page.new.items ≡ page.old.items ++ texts (flat_map spec.goal_pieces (view_goals goals.now))) }
{
    for goal in goals {
        put_goal(alloc, page, goal)?;
    }
    Ok(())
}

#[tactic(auto, unfolding(crate::specs::Page::summary_pieces))]
fn put_summary(
    alloc: Global,
    page: &mut Vec<u8>,
    count: usize,
    unknown: usize,
) -> Result<(), NoMemory>
    ensures { IfOk result (λ _. page.new.items ≡ page.old.items ++ texts (spec.summary_pieces count unknown)) }
{
    put_pieces(
        alloc,
        page,
        &[
            (b"details", NOTHING),
            (b"summary", Text::Bytes(b"goals ")),
            (b"b", Text::Number(count as u64)),
            (b"/b", Text::Bytes(b" unknown ")),
            (b"b", Text::Number(unknown as u64)),
            (b"/b", NOTHING),
            (b"/summary", NEWLINE),
            (b"table", NEWLINE),
        ],
    )
}

#[tactic(auto, unfolding(crate::specs::Page::details_end))]
fn put_details_end(alloc: Global, page: &mut Vec<u8>) -> Result<(), NoMemory>
    ensures { IfOk result (λ _. page.new.items ≡ page.old.items ++ texts spec.details_end) }
{
    put_pieces(alloc, page, &[(b"/table", NEWLINE), (b"/details", NEWLINE)])
}

/// Puts goals, folded.
pub fn put_details(alloc: Global, page: &mut Vec<u8>, goals: &[Goal]) -> Result<(), NoMemory>
    ensures { IfOk result (λ _. page.new.items ≡ page.old.items ++ texts (spec.details (view_goals goals.now))) }
{
    put_summary(alloc, page, goals.len(), unknown_in(goals))?;
    put_rows(alloc, page, goals)?;
    put_details_end(alloc, page)
}

/// Puts the goals of a line, where it has some.
#[tactic(auto, using(crate::proofs::Counts::none_folded, crate::proofs::Counts::some_folded))]
pub fn put_folded(alloc: Global, page: &mut Vec<u8>, goals: &[Goal]) -> Result<(), NoMemory>
    ensures { IfOk result (λ _. page.new.items ≡ page.old.items ++ texts (spec.folded (view_goals goals.now))) }
{
    if goals.is_empty() {
        return Ok(());
    }
    put_details(alloc, page, goals)
}
