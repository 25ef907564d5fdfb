// Where the pass of a loop stands.
ghost use Rattle.std.specs.Prelude.{◌≡◌, ◌+◌, List, IfOk};
ghost use Rattle.core_trees.specs.View.{view_loop};
ghost use Rattle.program_steps.specs.Temporaries.{Temporaries};
ghost use Rattle.program_steps.specs.Words.{in_pass};
ghost use Rattle.walk_frames.specs.View.{view_point};
ghost use Rattle.walk_frames.specs.declared.frames.Frame as frames;

use core_trees::Loop;
use walk_frames::{Force, Point};
use wp_base::NoMemory;

/// The level of a state, where so many more are remembered.
pub(crate) fn further(level: usize, more: usize) -> Result<usize, NoMemory>
    ensures { IfOk result (λ sum. sum ≡ level + more) }
{
    level.checked_add(more).ok_or(NoMemory)
}

/// Where the pass of a loop stands, before which the loop's entry and its head are remembered.
pub fn inner_point<'a>(point: Point<'a>, l: &'a Loop) -> Result<Point<'a>, NoMemory>
    ensures { (x : frames.Frame) (os : List Temporaries) → IfOk result (λ inner. view_point x os inner ≡ in_pass (view_loop l.now) (view_point x os point.entry)) }
{
    let entry = point.entry.checked_add(2).ok_or(NoMemory)?;
    let force = match &l.assigns {
        None => point.force,
        Some(regions) => Force::OfLoop(regions, l.declared),
    };
    Ok(Point {
        entry,
        loop_entry: 1,
        force,
    })
}
