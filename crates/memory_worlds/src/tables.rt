// The table of blocks: points that are passed, blocks that are made and that end.
ghost use Rattle.std.specs.Prelude.{◌≡◌, ◌++◌, ◌∷◌, [], map, OnOk};
ghost use Rattle.qed_terms.specs.Fresh.{use_one};
ghost use Rattle.qed_terms.specs.Tree.{at_most};
ghost use Rattle.qed_terms.specs.View.{formula_tree, term_tree};
ghost use Rattle.walk_steps.specs.State.{put};
ghost use Rattle.memory_steps.specs.Forms.{slots_of};
ghost use Rattle.memory_steps.specs.World as spec;
ghost use Rattle.memory_worlds.specs.View.{used_by, view_slots, view_world};

use crate::names::{Names, count_name};
use crate::terms::{add_order, alloc_of, count_of, grow_of};
use crate::worlds;
use crate::worlds::{Mark, Slots, World, copy_trail};
use qed_terms::{Formula, Term};
use std::alloc::Global;
use std::mem;
use wp_base::{Layout, NoMemory};

// The table is taken away.
fn taken(slots: &mut Slots) -> Term
    ensures table { result ≡ slots.old.table }
    ensures terms { slots.new.terms ≡ slots.old.terms }
    ensures trail { slots.new.trail ≡ slots.old.trail }
{
    mem::replace(&mut slots.table, Term::number(0))
}

/// A point is passed.
#[tactic(auto, using(crate::proofs::Pushing::map_push))]
pub fn pass(alloc: Global, names: &mut Names, world: &mut World) -> Result<(), NoMemory>
    ensures world { OnOk result (view_world world.new ≡ spec.marked (used_by names.old) (view_world world.old)) }
    ensures used { OnOk result (used_by names.new ≡ use_one (used_by names.old) spec.mark_base) }
{
    let number = names.mark()?;
    let table = world.slots.table.copy(alloc)?;
    world.slots.trail.push(Mark { number, table })?;
    Ok(())
}

// It is known that the number of blocks is at most this one.
fn add_bound(
    alloc: Global,
    table: &Term,
    count: &Term,
    known: &mut Vec<Formula>,
) -> Result<(), NoMemory>
    ensures { OnOk result (map formula_tree known.new.items ≡ map formula_tree known.old.items ++ at_most (spec.count_of (term_tree table.now)) (term_tree count.now) ∷ []) }
{
    let before = count_of(alloc, table.copy(alloc)?)?;
    add_order(alloc, before, count.copy(alloc)?, known)
}

/// Any number of blocks were made and have ended.
pub fn grow(alloc: Global, names: &mut Names, world: &mut World) -> Result<(), NoMemory>
    ensures world { OnOk result (view_world world.new ≡ spec.grown_world (used_by names.old) (view_world world.old)) }
    ensures used { OnOk result (used_by names.new ≡ use_one (used_by names.old) spec.count_base.name) }
{
    let count = count_name(alloc, names)?;
    add_bound(alloc, &world.slots.table, &count, &mut world.known)?;
    let table = taken(&mut world.slots);
    world.slots.table = grow_of(alloc, table, count)?;
    Ok(())
}

// The number of blocks is in this slot.
fn put_count(alloc: Global, at: usize, slots: &mut Slots) -> Result<(), NoMemory>
    ensures { OnOk result (view_slots slots.new ≡ spec.with_terms (view_slots slots.old) (put (view_slots slots.old).terms at (spec.count_of (view_slots slots.old).table))) }
{
    let count = count_of(alloc, slots.table.copy(alloc)?)?;
    worlds::put(&mut slots.terms, at, count);
    Ok(())
}

// The only point is that of the present table.
fn mark_alone(alloc: Global, number: u64, slots: &mut Slots) -> Result<(), NoMemory>
    ensures { OnOk result (view_slots slots.new ≡ slots_of (view_slots slots.old).terms (view_slots slots.old).table (record { number = number; table = (view_slots slots.old).table } ∷ [])) }
{
    let table = slots.table.copy(alloc)?;
    slots.trail.clear();
    slots.trail.push(Mark { number, table })?;
    Ok(())
}

/// One more block, which lives; its number is in this slot. The only point is that behind it.
pub fn make_block(
    alloc: Global,
    names: &mut Names,
    at: usize,
    layout: Layout,
    world: &mut World,
) -> Result<(), NoMemory>
    ensures world { OnOk result (view_world world.new ≡ spec.made_world (used_by names.old) at layout (view_world world.old)) }
    ensures used { OnOk result (used_by names.new ≡ use_one (used_by names.old) spec.mark_base) }
{
    let number = names.mark()?;
    put_count(alloc, at, &mut world.slots)?;
    let table = taken(&mut world.slots);
    world.slots.table = alloc_of(alloc, table, layout)?;
    mark_alone(alloc, number, &mut world.slots)
}

/// The blocks that were made since these slots have ended, and the points are those from before.
pub fn end_blocks(alloc: Global, old: &Slots, world: &mut World) -> Result<(), NoMemory>
    ensures { OnOk result (view_world world.new ≡ spec.ended_world (view_slots old.now) (view_world world.old)) }
{
    let count = count_of(alloc, taken(&mut world.slots))?;
    world.slots.table = grow_of(alloc, old.table.copy(alloc)?, count)?;
    world.slots.trail = copy_trail(alloc, old.trail.as_slice())?;
    Ok(())
}
