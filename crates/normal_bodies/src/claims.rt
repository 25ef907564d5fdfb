// Copies of annotations, each of which equals its source.
ghost use Rattle.std.specs.Prelude.{◌≡◌, IfOk};

use acsl_trees::Tree;
use core_trees::{Claim, Loop, Measure};
use std::alloc::Global;
use wp_base::{List, NoMemory};

pub(crate) fn copy_claim(alloc: Global, claim: &Claim) -> Result<Claim, NoMemory>
    ensures { IfOk result (λ copy. copy ≡ claim.now) }
{
    let what = claim.what.copy(alloc)?;
    Ok(Claim {
        what,
        line: claim.line,
    })
}

fn copy_claims(alloc: Global, claims: &[Claim]) -> Result<List<Claim>, NoMemory>
    ensures { IfOk result (λ copies. copies ≡ claims.now) }
{
    let mut copies = List::new(alloc);
    for claim in claims {
        copies.push(copy_claim(alloc, claim)?)?;
    }
    Ok(copies)
}

fn copy_trees(alloc: Global, trees: &[Tree]) -> Result<List<Tree>, NoMemory>
    ensures { IfOk result (λ copies. copies ≡ trees.now) }
{
    let mut copies = List::new(alloc);
    for tree in trees {
        copies.push(tree.copy(alloc)?)?;
    }
    Ok(copies)
}

fn copy_regions(alloc: Global, regions: &Option<List<Tree>>) -> Result<Option<List<Tree>>, NoMemory>
    ensures { IfOk result (λ copy. copy ≡ regions.now) }
{
    match regions {
        None => Ok(None),
        Some(trees) => Ok(Some(copy_trees(alloc, trees.as_slice())?)),
    }
}

fn copy_measure(alloc: Global, measure: &Option<Measure>) -> Result<Option<Measure>, NoMemory>
    ensures { IfOk result (λ copy. copy ≡ measure.now) }
{
    match measure {
        None => Ok(None),
        Some(measure) => {
            let what = measure.what.copy(alloc)?;
            Ok(Some(Measure {
                what,
                line: measure.line,
            }))
        }
    }
}

pub(crate) fn copy_loop(alloc: Global, claims: &Loop) -> Result<Loop, NoMemory>
    ensures { IfOk result (λ copy. copy ≡ claims.now) }
{
    let invariants = copy_claims(alloc, claims.invariants.as_slice())?;
    let assigns = copy_regions(alloc, &claims.assigns)?;
    let variant = copy_measure(alloc, &claims.variant)?;
    Ok(Loop {
        invariants,
        assigns,
        line: claims.line,
        variant,
        declared: claims.declared,
    })
}
