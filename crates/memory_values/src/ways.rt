// The way to an object that is written, whose operands have these terms (C11 6.5.16).
ghost use Rattle.std.specs.Prelude.{◌≡◌, ◌++◌, ℕ, map, List, IfOk, OnOk};
ghost use Rattle.memory_steps.specs.Forms.{Slots};
ghost use Rattle.memory_values.specs.Drafts.{Pushes};
ghost use Rattle.memory_values.specs.OverSlots.{IsLevel, fill_item, fill_term, leaf_reading};
ghost use Rattle.memory_values.specs.View.{facts_in, shape_in, slots_in, table_in, view_items, view_reading, view_term, view_terms};
ghost use Rattle.value_terms.specs.Places.{way_items};
ghost use Rattle.value_terms.specs.Readings.{Term};
ghost use Rattle.value_terms.specs.Terms.{address_term};

use crate::accesses::{push_indices, push_write};
use crate::items::Item;
use crate::objects::address;
use crate::readings::Reading;
use crate::terms::ValueTerm;
use std::alloc::Global;
use typed_prog::{CoreType, Path};
use wp_base::NoMemory;

/// Where the way leads.
pub fn address_of(
    alloc: Global,
    reading: Reading,
    path: &Path,
    terms: &[ValueTerm],
) -> Result<ValueTerm, NoMemory>
    ensures { let r = reading.entry in let p = facts_in r in let s = shape_in r in (ss : List Slots) (l : ℕ) (ts : List Term) → IsLevel ss l (slots_in r) (table_in r) → view_terms terms.now ≡ map (fill_term ss) ts → IfOk result (λ made. view_term made ≡ fill_term ss (address_term p (leaf_reading p s l) path.now ts)) }
{
    let made = address(alloc, reading, path, terms)?;
    Ok(made)
}

// The index of each declared array, and then the access.
#[tactic(auto, using(crate::proofs::Adding::wants))]
fn push_way(
    alloc: Global,
    reading: Reading,
    ty: &CoreType,
    path: &Path,
    terms: &[ValueTerm],
    out: &mut Vec<Item>,
) -> Result<(), NoMemory>
    ensures { let r = reading.entry in Pushes result out.old.items out.new.items (way_items (facts_in r) (view_reading r) ty.now path.now (view_terms terms.now)) }
{
    push_indices(alloc, path, terms, out)?;
    push_write(alloc, reading, ty, path, terms, out)
}

/// What the way meets is pushed.
pub fn way_of(
    alloc: Global,
    reading: Reading,
    ty: &CoreType,
    path: &Path,
    terms: &[ValueTerm],
    items: &mut Vec<Item>,
) -> Result<(), NoMemory>
    ensures { let r = reading.entry in let p = facts_in r in let s = shape_in r in (ss : List Slots) (l : ℕ) (ts : List Term) → IsLevel ss l (slots_in r) (table_in r) → view_terms terms.now ≡ map (fill_term ss) ts → OnOk result (view_items items.new.items ≡ view_items items.old.items ++ map (fill_item ss) (way_items p (leaf_reading p s l) ty.now path.now ts)) }
{
    push_way(alloc, reading, ty, path, terms, items)
}
