// Two sorts of clauses as one, by the places of their first tokens.
ghost use Rattle.std.specs.Prelude.{◌≡◌, ◌++◌, IfOk, OnOk, drop, map};
ghost use Rattle.acsl_clauses.specs.Items as spec;

use crate::items::Item;
use std::alloc::Global;
use wp_base::NoMemory;

// Puts those clauses, from one on, that stand before a place; and which is the first behind.
#[tactic(auto, using(crate::proofs::Joining::ahead_laws))]
fn put_ahead<'a>(
    items: &mut Vec<Item<'a>>,
    others: &[Item<'a>],
    from: usize,
    place: usize,
) -> Result<usize, NoMemory>
    ensures { IfOk result (λ next. (map spec.view_item items.new.items ≡ map spec.view_item items.old.items ++ spec.ahead place (map spec.view_item (drop from others.now)))
        × (map spec.view_item (drop next others.now) ≡ spec.behind place (map spec.view_item (drop from others.now)))) }
{
    let mut next = from;
    while next < others.len() {
        let other = others[next];
        if other.place() >= place {
            return Ok(next);
        }
        items.push(other)?;
        next += 1;
    }
    Ok(next)
}

// Puts those clauses from one on.
#[tactic(auto, using(crate::proofs::Joining::rest_laws))]
fn put_rest<'a>(items: &mut Vec<Item<'a>>, others: &[Item<'a>], from: usize) -> Result<(), NoMemory>
    ensures { OnOk result (map spec.view_item items.new.items ≡ map spec.view_item items.old.items ++ map spec.view_item (drop from others.now)) }
{
    let mut next = from;
    while next < others.len() {
        items.push(others[next])?;
        next += 1;
    }
    Ok(())
}

/// Both, in the order of the text where each of them is.
#[tactic(auto, using(crate::proofs::Joining::merge_laws))]
pub(crate) fn merged<'a>(
    alloc: Global,
    first: &[Item<'a>],
    second: &[Item<'a>],
) -> Result<Vec<Item<'a>>, NoMemory>
    ensures { IfOk result (λ items. map spec.view_item items.items ≡ spec.merged (map spec.view_item first.now) (map spec.view_item second.now)) }
{
    let mut items = Vec::new(alloc);
    let mut next = 0;
    for i in 0..first.len() {
        let item = first[i];
        next = put_ahead(&mut items, second, next, item.place())?;
        items.push(item)?;
    }
    put_rest(&mut items, second, next)?;
    Ok(items)
}
