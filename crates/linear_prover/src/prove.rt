// Whether the links of a branch are a negative chain or a short sum.
ghost use Rattle.std.specs.Prelude.{◌<◌, All, map, IfOk, IfSome, MatchOption};
ghost use Rattle.tree_places.specs.View.{nodes_of, IsKept};
ghost use Rattle.term_forms.specs.Forms.{tree_of, count_of};
ghost use Rattle.congruence.specs.Closed.{IsClosed};
ghost use Rattle.branch_links.specs.BranchLinks.{LinksRefute, RefutedBy};
ghost use Rattle.branch_links.specs.Numbered.{At};

use crate::links::all_links;
use class_links::class_numbers;
use congruence::TermClasses;
use linear_chains::refutation;
use std::alloc::Global;
use tree_places::TreeTable;
use wp_base::NoMemory;

/// What stands at some places of a row, where each is one.
fn taken_at(
    alloc: Global,
    literals: &[usize],
    places: &[usize],
) -> Result<Option<Vec<usize>>, NoMemory>
    ensures { IfOk result (λ o. IfSome o (λ taken. At literals.now places.now taken.items)) }
{
    let mut taken = Vec::new(alloc);
    for i in 0..places.len() {
        let place = places[i];
        if place >= literals.len() {
            return Ok(None);
        }
        taken.push(literals[place])?;
    }
    Ok(Some(taken))
}

/// The literals of a negative chain or of a short sum among the links of a branch, where there is one.
///
/// Want of memory is also the answer where the search for a chain, which isn't proved to find one, fails; see `linear_chains`. So it is where a sum
/// passes 2^255 in size, which takes 2^127 numbers of 128 bits, or products of numbers near 2^127.
pub fn negative_chain(
    alloc: Global,
    table: &TreeTable,
    closed: &TermClasses,
    literals: &[usize],
) -> Result<Option<Vec<usize>>, NoMemory>
    requires kept { IsKept table.now }
    requires below { All (λ k. k < count_of table.now) literals.now }
    requires closed { IsClosed (map (tree_of table.now) literals.now) (nodes_of table.now) closed.now.marks.items closed.now.classes.items }
    ensures { IfOk result (λ o. MatchOption o (LinksRefute (map (tree_of table.now) literals.now) → ⊥) (λ taken. RefutedBy (map (tree_of table.now) literals.now) (map (tree_of table.now) taken.items))) }
{
    let numbers = class_numbers(alloc, table, closed.classes.as_slice())?;
    let all = all_links(alloc, table, closed.classes.as_slice(), &numbers, literals)?;
    let Some(found) = refutation(alloc, all.links.as_slice())? else {
        return Ok(None)
    };
    match taken_at(alloc, all.literals.as_slice(), found.places.as_slice())? {
        Some(taken) => Ok(Some(taken)),
        // The places are those of links, which all have a literal.
        None => Err(NoMemory),
    }
}
