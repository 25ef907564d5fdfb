// The temporaries of functions.
ghost use Rattle.std.specs.Prelude.{◌≡◌, map, IfOk};
ghost use Rattle.checked_trees.specs.View.{view_checked_program, view_steps};
ghost use Rattle.temporary_kinds.specs.Kinds as spec;

use crate::steps::mention_steps;
use checked_trees::{CheckedProgram, Step};
use std::alloc::Global;
use wp_base::{CellKind, Kind, List, NoMemory};

// One of which nothing is told counts as an `int`.
fn or_int(kind: Option<CellKind>) -> CellKind
    ensures { result ≡ spec.or_int kind }
{
    match kind {
        Some(kind) => kind,
        None => CellKind::Of(Kind::Int),
    }
}

fn settled(alloc: Global, kinds: &[Option<CellKind>]) -> Result<List<CellKind>, NoMemory>
    ensures { IfOk result (λ made. made ≡ map spec.or_int kinds.now) }
{
    let mut made = List::new(alloc);
    for at in 0..kinds.len() {
        made.push(or_int(kinds[at]))?;
    }
    Ok(made)
}

/// The kinds of the temporaries in a body of a program, by their numbers.
#[tactic(auto, using(crate::proofs::Settled::all_settled))]
pub fn temporary_kinds(
    alloc: Global,
    program: &CheckedProgram,
    body: &[Step],
) -> Result<List<CellKind>, NoMemory>
    ensures { IfOk result (λ made. made ≡ spec.temporary_kinds (spec.results_of (view_checked_program program.now)) (view_steps body.now)) }
{
    let mut kinds = Vec::new(alloc);
    mention_steps(body, program.functions.as_slice(), &mut kinds)?;
    let made = settled(alloc, kinds.as_slice())?;
    Ok(made)
}
