// Whether links refute each other.
ghost use Rattle.std.specs.Prelude.{map, IfOk};
ghost use Rattle.linear_chains.specs.Chains.{AreOrdered};
ghost use Rattle.linear_chains.specs.View.{link_of, Answers};

use crate::checks::{all_meet, chain_of};
use crate::links::{LinkForm, Refutation, all_sides};
use crate::search::search;
use crate::sums::short_sum;
use std::alloc::Global;
use wp_base::NoMemory;

/// A negative chain of links or a short sum, where there is one.
///
/// The search for a chain is checked and not proved: where neither its numbers meet all links nor its circle is a chain, the answer is want of
/// memory. That is so, too, of a coefficient, a sum of two coefficients or a sum of bounds beyond 128 bits. That neither comes of links
/// whose numbers are at most 2^96 in size is not proved.
pub fn refutation(alloc: Global, links: &[LinkForm]) -> Result<Option<Refutation>, NoMemory>
    requires { AreOrdered (map link_of links.now) }
    ensures { IfOk result (λ o. Answers (map link_of links.now) o) }
{
    let steps = all_sides(alloc, links)?;
    let found = search(alloc, steps.as_slice())?;
    if all_meet(steps.as_slice(), &found.table, found.numbers.as_slice()) {
        let sum = short_sum(alloc, links)?;
        return Ok(sum);
    }
    match chain_of(alloc, steps.as_slice(), found.circle)? {
        Some(chain) => Ok(Some(chain)),
        None => Err(NoMemory),
    }
}
