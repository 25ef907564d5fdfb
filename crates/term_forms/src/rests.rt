// The rest of a form without one of its parts, turned or as it is.
ghost use Rattle.std.specs.Prelude.{◌≡◌, ◌<◌, ◌+◌, ◌++◌, ◌∷◌, [], false, true, length, map, take, drop, All, IfOk, MatchOption};
ghost use Rattle.std.specs.Bool.{MatchBool};
ghost use Rattle.qed_terms.specs.Tree.{head_of};
ghost use Rattle.qed_linear.specs.Linear.{fits, is_integer, parts_fit};
ghost use Rattle.same_places.specs.Same.{PartsWithin};
ghost use Rattle.same_terms.specs.Stands.{tree_part, tree_parts};
ghost use Rattle.same_terms.specs.Written.{rest_form};
ghost use Rattle.tree_places.specs.View.{IsKept};
ghost use Rattle.term_forms.specs.Forms.{tree_of, count_of, signed, signed_number, IsChecked};

use crate::forms::{Form, form_with, node_at, pair};
use crate::heads::is_integer;
use same_places::Part;
use std::alloc::Global;
use tree_places::TreeTable;
use wp_base::NoMemory;

fn signed_number(number: i128, plus: bool) -> Option<i128>
    ensures { MatchOption result (fits (signed_number plus number) ≡ false) (λ z. (z ≡ signed_number plus number) × (fits z ≡ true)) }
{
    if plus {
        number.checked_neg()
    } else {
        Some(number)
    }
}

/// A part turned or as it is, where it is of an integer and fits.
fn signed_part(table: &TreeTable, part: &Part, plus: bool) -> Option<Part>
    requires kept { IsKept table.now }
    requires below { part.now.0 < count_of table.now }
    ensures { MatchOption result (parts_fit (signed plus (tree_part (tree_of table.now) part.now) ∷ []) ≡ false) (λ p. (tree_part (tree_of table.now) p ≡ signed plus (tree_part (tree_of table.now) part.now)) × (p.0 < count_of table.now) × (parts_fit (tree_part (tree_of table.now) p ∷ []) ≡ true)) }
{
    if !is_integer(&node_at(table, part.0).head) {
        return None;
    }
    match signed_number(part.1, plus) {
        Some(times) => Some(pair(part.0, times)),
        None => None,
    }
}

/// All of these behind the others; it tells whether they are of integers and fit.
fn put_signed(
    table: &TreeTable,
    parts: &[Part],
    plus: bool,
    into: &mut Vec<Part>,
) -> Result<bool, NoMemory>
    requires kept { IsKept table.now }
    requires below { PartsWithin (count_of table.now) parts.now }
    ensures { IfOk result (λ b. MatchBool b ((tree_parts (tree_of table.now) into.new.items ≡ tree_parts (tree_of table.now) into.old.items ++ map (signed plus) (tree_parts (tree_of table.now) parts.now)) × (PartsWithin (count_of table.now) into.old.items → PartsWithin (count_of table.now) into.new.items) × (parts_fit (map (signed plus) (tree_parts (tree_of table.now) parts.now)) ≡ true)) (parts_fit (map (signed plus) (tree_parts (tree_of table.now) parts.now)) ≡ false)) }
{
    for part in parts {
        match signed_part(table, part, plus) {
            Some(part) => into.push(part)?,
            None => return Ok(false),
        }
    }
    Ok(true)
}

/// The rest of a form for the atom at a place in it, where it fits.
pub fn rest_form(
    alloc: Global,
    table: &TreeTable,
    form: &Form,
    at: usize,
    plus: bool,
) -> Result<Option<Form>, NoMemory>
    requires kept { IsKept table.now }
    requires at { at < length form.now.parts.items }
    requires below { PartsWithin (count_of table.now) form.now.parts.items }
    ensures { IfOk result (IsChecked (count_of table.now) (tree_of table.now) (rest_form plus (tree_parts (tree_of table.now) (take at form.now.parts.items ++ drop (at + 1) form.now.parts.items)) form.now.constant)) }
{
    let mut parts = Vec::new(alloc);
    if !put_signed(table, &form.parts[..at], plus, &mut parts)? {
        return Ok(None);
    }
    if !put_signed(table, &form.parts[at + 1..], plus, &mut parts)? {
        return Ok(None);
    }
    match signed_number(form.constant, plus) {
        Some(constant) => Ok(Some(form_with(parts, constant))),
        None => Ok(None),
    }
}
