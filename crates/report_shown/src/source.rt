// The lines of a source, and the goals that stand on each.
ghost use Rattle.std.specs.Prelude.{◌≡◌, ◌++◌, [], IfOk, map};
ghost use Rattle.report_read.specs.View.{bytes_of, view_goal};
ghost use Rattle.report_shown.specs.Source as spec;
ghost use Rattle.report_shown.specs.View.{view_goals, view_list};

use report_read::{Goal, until};
use std::alloc::Global;
use wp_base::NoMemory;

// What stands behind the last newline, if it isn't empty.
#[tactic(auto, using(crate::proofs::Placed::no_last, crate::proofs::Placed::one_last))]
fn push_last<'a>(found: &mut Vec<&'a [u8]>, rest: &'a [u8]) -> Result<(), NoMemory>
    ensures { IfOk result (λ _. map bytes_of found.new.items ≡ map bytes_of found.old.items ++ spec.last_line rest.now) }
{
    if !rest.is_empty() {
        found.push(rest)?;
    }
    Ok(())
}

/// The lines of a text, without their newlines.
#[tactic(auto, using(crate::proofs::Placed::newline_consumes))]
pub fn lines(alloc: Global, text: &[u8]) -> Result<Vec<&[u8]>, NoMemory>
    ensures { IfOk result (λ found. map bytes_of found.items ≡ spec.lines text.now) }
{
    let mut found = Vec::new(alloc);
    let mut rest = text;
    while let Some((line, behind)) = until(b'\n', rest) {
        found.push(line)?;
        rest = behind;
    }
    push_last(&mut found, rest)?;
    Ok(found)
}

/// The goals that stand on lines that a source of so many lines hasn't.
#[tactic(auto, using(crate::proofs::Filtered::passes, crate::proofs::Filtered::passes_not, crate::proofs::Filtered::passed))]
pub fn elsewhere<'a>(
    alloc: Global,
    count: usize,
    goals: &[Goal<'a>],
) -> Result<Vec<Goal<'a>>, NoMemory>
    ensures { IfOk result (λ found. view_goals found.items ≡ spec.elsewhere count (view_goals goals.now)) }
{
    let mut found = Vec::new(alloc);
    for goal in goals {
        if goal.line == 0 || goal.line as usize > count {
            found.push(*goal)?;
        }
    }
    Ok(found)
}

fn empty_list<'a>(alloc: Global, _line: usize) -> Vec<Goal<'a>>
    ensures { result.items ≡ [] }
{
    Vec::new(alloc)
}

// A list for each line.
#[tactic(auto, using(crate::proofs::Placed::empties_more, crate::proofs::Placed::empties_all))]
fn empty_lists<'a>(alloc: Global, count: usize) -> Result<Vec<Vec<Goal<'a>>>, NoMemory>
    ensures { IfOk result (λ found. map view_list found.items ≡ spec.by_line 1 count []) }
{
    let mut found = Vec::new(alloc);
    for line in 0..count {
        found.push(empty_list(alloc, line))?;
    }
    Ok(found)
}

// Puts a goal behind those of its line, if there is such a line.
#[tactic(auto, using(crate::proofs::Placed::no_line))]
fn put_goal<'a>(found: &mut Vec<Vec<Goal<'a>>>, goal: &Goal<'a>) -> Result<(), NoMemory>
    ensures { IfOk result (λ _. map view_list found.new.items ≡ spec.with_goal 1 (view_goal goal.now) (map view_list found.old.items)) }
{
    if goal.line == 0 {
        return Ok(());
    }
    if let Some(there) = found.get_mut(goal.line as usize - 1) {
        there.push(*goal)?;
    }
    Ok(())
}

/// The goals of each line of a source with so many lines.
#[tactic(auto, using(crate::proofs::Placed::placed_more, crate::proofs::Placed::placed_end))]
pub fn by_line<'a>(
    alloc: Global,
    count: usize,
    goals: &[Goal<'a>],
) -> Result<Vec<Vec<Goal<'a>>>, NoMemory>
    ensures { IfOk result (λ found. map view_list found.items ≡ spec.by_line 1 count (view_goals goals.now)) }
{
    let mut found = empty_lists(alloc, count)?;
    for index in 0..goals.len() {
        put_goal(&mut found, &goals[index])?;
    }
    Ok(found)
}
