// The pair of an atom and its rest.
ghost use Rattle.std.specs.Prelude.{◌≡◌, ◌<◌, Bool, length, OnOk, IfOk, MatchOption};
ghost use Rattle.same_places.specs.Same.{PartsWithin};
ghost use Rattle.same_terms.specs.SameTerms.{unit_times};
ghost use Rattle.tree_places.specs.Tables.{Grows};
ghost use Rattle.tree_places.specs.View.{nodes_of, IsKept};
ghost use Rattle.term_forms.specs.Forms.{tree_of, count_of};
ghost use Rattle.term_rests.specs.Rests.{IsPairAt, ArePairs, with_pair};

use same_places::Part;
use std::alloc::Global;
use term_forms::{Form, form_place, is_integer, node_at, rest_form};
use tree_places::TreeTable;
use wp_base::NoMemory;

/// Whether a coefficient is 1, or -1.
fn unit_of(part: &Part) -> Option<bool>
    ensures { MatchOption result ((plus : Bool) → part.now.1 ≡ unit_times plus → ⊥) (λ plus. part.now.1 ≡ unit_times plus) }
{
    if part.1 == 1 {
        return Some(true);
    }
    if part.1 == -1 {
        return Some(false);
    }
    None
}

/// The places of an atom of a form and of its rest, where it has one.
pub fn rest_pair(
    alloc: Global,
    table: &mut TreeTable,
    form: &Form,
    at: usize,
) -> Result<Option<(usize, usize)>, NoMemory>
    requires kept { IsKept table.old }
    requires at { at < length form.now.parts.items }
    requires below { PartsWithin (count_of table.old) form.now.parts.items }
    ensures kept { OnOk result (IsKept table.new) }
    ensures grows { OnOk result (Grows (nodes_of table.old) (nodes_of table.new)) }
    ensures pair { IfOk result (IsPairAt (count_of table.new) (tree_of table.old) (tree_of table.new) form.now at) }
{
    let part = &form.parts[at];
    let Some(plus) = unit_of(part) else {
        return Ok(None)
    };
    if !is_integer(&node_at(table, part.0).head) {
        return Ok(None);
    }
    let Some(rest) = rest_form(alloc, table, form, at, plus)? else {
        return Ok(None)
    };
    let place = form_place(alloc, table, &rest)?;
    Ok(Some((part.0, place)))
}

fn push_pair(pairs: &mut Vec<(usize, usize)>, pair: Option<(usize, usize)>) -> Result<(), NoMemory>
    ensures { OnOk result (pairs.new.items ≡ with_pair pairs.old.items pair) }
{
    if let Some(pair) = pair {
        pairs.push(pair)?;
    }
    Ok(())
}

/// The atoms of a form and their rests, by places.
pub fn rest_pairs(
    alloc: Global,
    table: &mut TreeTable,
    form: &Form,
) -> Result<Vec<(usize, usize)>, NoMemory>
    requires kept { IsKept table.old }
    requires below { PartsWithin (count_of table.old) form.now.parts.items }
    ensures kept { OnOk result (IsKept table.new) }
    ensures grows { OnOk result (Grows (nodes_of table.old) (nodes_of table.new)) }
    ensures pairs { IfOk result (λ pairs. ArePairs (count_of table.new) (tree_of table.old) (tree_of table.new) form.now (length form.now.parts.items) pairs.items) }
{
    let mut pairs = Vec::new(alloc);
    for at in 0..form.parts.len() {
        let pair = rest_pair(alloc, table, form, at)?;
        push_pair(&mut pairs, pair)?;
    }
    Ok(pairs)
}
