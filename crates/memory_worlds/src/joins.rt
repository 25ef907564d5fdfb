// Two worlds as one, where paths meet.
ghost use Rattle.std.specs.Prelude.{◌≡◌, ◌≤◌, ◌∷◌, [], ◌++◌, not, length, map, IfOk, OnOk};
ghost use Rattle.qed_terms.specs.Order.{same};
ghost use Rattle.qed_terms.specs.Tree.{equal, or_of};
ghost use Rattle.qed_terms.specs.View.{formula_tree, term_tree};
ghost use Rattle.walk_steps.specs.Join as knowledge;
ghost use Rattle.memory_steps.specs.World as tables;
ghost use Rattle.memory_steps.specs.World.{pick, after_pick, after_picks, or_own, chosen, count_base, is_same};
ghost use Rattle.memory_steps.specs.Join as spec;
ghost use Rattle.memory_worlds.specs.Joins.{SlotsJoin};
ghost use Rattle.memory_worlds.specs.View.{used_by, view_base, view_mark, view_slots, view_split, view_world};

use crate::names::{Base, Names, count_name, new_name};
use crate::terms::{add_link, count_of, grow_of};
use crate::worlds::{Mark, Slots, World};
use qed_terms::{Formula, Term};
use std::alloc::Global;
use std::mem;
use wp_base::{List, NoMemory};

// ---- what is known

// How many formulas at the front are the same.
fn common(left: &[Formula], right: &[Formula]) -> usize
    ensures is { result ≡ length (knowledge.split (map formula_tree left.now) (map formula_tree right.now)).front }
    ensures in_left { result ≤ length left.now }
    ensures in_right { result ≤ length right.now }
{
    let mut at = 0;
    while at < left.len() && at < right.len() && left[at].is_same(&right[at]) {
        at += 1;
    }
    at
}

/// What holds on one side alone, and on the other.
#[derive(Drop)]
pub struct Rests {
    pub left: Vec<Formula>,
    pub right: Vec<Formula>,
}

// What follows the longest common front of two lists is taken off both.
#[tactic(auto, using(crate::proofs::Joined::split_at))]
fn divide(left: &mut Vec<Formula>, right: &mut Vec<Formula>) -> Result<Rests, NoMemory>
    ensures { IfOk result (λ rests. view_split left.new.items rests ≡ knowledge.split (map formula_tree left.old.items) (map formula_tree right.old.items)) }
{
    let at = common(left.as_slice(), right.as_slice());
    let left = left.split_off(at)?;
    let right = right.split_off(at)?;
    Ok(Rests { left, right })
}

// ---- slots

// A name stands for both terms, which it is on each side.
fn rename(
    alloc: Global,
    is_memory: bool,
    name: Term,
    term: &mut Term,
    other: &Term,
    rests: &mut Rests,
) -> Result<(), NoMemory>
    ensures term { OnOk result (term_tree term.new ≡ term_tree name) }
    ensures left { OnOk result (map formula_tree rests.new.left.items ≡ map formula_tree rests.old.left.items ++ is_same is_memory (term_tree name) (term_tree term.old) ∷ []) }
    ensures right { OnOk result (map formula_tree rests.new.right.items ≡ map formula_tree rests.old.right.items ++ is_same is_memory (term_tree name) (term_tree other.now) ∷ []) }
{
    add_link(
        alloc,
        is_memory,
        &name,
        other.copy(alloc)?,
        &mut rests.right,
    )?;
    let own = mem::replace(term, name);
    add_link(alloc, is_memory, term, own, &mut rests.left)
}

// Two terms as one: a fresh name where they differ.
fn join_terms(
    alloc: Global,
    names: &mut Names,
    base: &Base,
    term: &mut Term,
    other: &Term,
    rests: &mut Rests,
) -> Result<(), NoMemory>
    ensures term { let p = pick (used_by names.old) (view_base base.now) (not (same (term_tree term.old) (term_tree other.now))) in OnOk result (term_tree term.new ≡ or_own p (term_tree term.old)) }
    ensures left { let p = pick (used_by names.old) (view_base base.now) (not (same (term_tree term.old) (term_tree other.now))) in OnOk result (map formula_tree rests.new.left.items ≡ map formula_tree rests.old.left.items ++ spec.link (view_base base.now) p (term_tree term.old)) }
    ensures right { let p = pick (used_by names.old) (view_base base.now) (not (same (term_tree term.old) (term_tree other.now))) in OnOk result (map formula_tree rests.new.right.items ≡ map formula_tree rests.old.right.items ++ spec.link (view_base base.now) p (term_tree other.now)) }
    ensures used { let p = pick (used_by names.old) (view_base base.now) (not (same (term_tree term.old) (term_tree other.now))) in OnOk result (used_by names.new ≡ after_pick (used_by names.old) (view_base base.now) p) }
{
    if term.is_same(other) {
        return Ok(());
    }
    let name = new_name(alloc, names, base)?;
    rename(alloc, base.is_memory, name, term, other, rests)
}

// The slots of two worlds; where one has no partner, that of the first one stays.
fn join_all(
    alloc: Global,
    names: &mut Names,
    bases: &[Base],
    terms: &mut Vec<Term>,
    others: &[Term],
    rests: &mut Rests,
) -> Result<(), NoMemory>
    ensures terms { let ps = spec.picks (map view_base bases.now) (used_by names.old) (map term_tree terms.old.items) (map term_tree others.now) in OnOk result (map term_tree terms.new.items ≡ chosen ps (map term_tree terms.old.items)) }
    ensures left { let ps = spec.picks (map view_base bases.now) (used_by names.old) (map term_tree terms.old.items) (map term_tree others.now) in OnOk result (map formula_tree rests.new.left.items ≡ map formula_tree rests.old.left.items ++ spec.links (map view_base bases.now) ps (map term_tree terms.old.items)) }
    ensures right { let ps = spec.picks (map view_base bases.now) (used_by names.old) (map term_tree terms.old.items) (map term_tree others.now) in OnOk result (map formula_tree rests.new.right.items ≡ map formula_tree rests.old.right.items ++ spec.links (map view_base bases.now) ps (map term_tree others.now)) }
    ensures used { let ps = spec.picks (map view_base bases.now) (used_by names.old) (map term_tree terms.old.items) (map term_tree others.now) in OnOk result (used_by names.new ≡ after_picks (map view_base bases.now) ps (used_by names.old)) }
{
    let pairs = bases.len().min(terms.len().min(others.len()));
    for at in 0..pairs {
        join_terms(alloc, names, &bases[at], &mut terms[at], &others[at], rests)?;
    }
    Ok(())
}

// ---- the table

// Whether it is the same point.
fn is_same_mark(left: &Mark, right: &Mark) -> bool
    ensures { result ≡ spec.same_mark (view_mark left.now) (view_mark right.now) }
{
    left.number == right.number && left.table.is_same(&right.table)
}

// How many points both have passed.
fn common_marks(left: &[Mark], right: &[Mark]) -> usize
    ensures is { result ≡ length (spec.common (map view_mark left.now) (map view_mark right.now)) }
    ensures in_left { result ≤ length left.now }
{
    let mut at = 0;
    while at < left.len() && at < right.len() && is_same_mark(&left[at], &right[at]) {
        at += 1;
    }
    at
}

// The points that both have passed.
#[tactic(auto, using(crate::proofs::JoinedTables::common_at))]
fn join_trails(trail: &mut Vec<Mark>, other: &[Mark])
    ensures { map view_mark trail.new.items ≡ spec.common (map view_mark trail.old.items) (map view_mark other.now) }
{
    let passed = common_marks(trail.as_slice(), other);
    trail.truncate(passed);
}

// The table of the last point, or this one.
#[tactic(auto, using(crate::proofs::JoinedTables::last_some, crate::proofs::JoinedTables::last_none))]
fn last_table(alloc: Global, table: &Term, trail: &[Mark]) -> Result<Term, NoMemory>
    ensures { IfOk result (λ term. term_tree term ≡ spec.last_table (term_tree table.now) (map view_mark trail.now)) }
{
    match trail.last() {
        Some(mark) => mark.table.copy(alloc),
        None => table.copy(alloc),
    }
}

// That a number is that of the blocks of a table.
fn add_count(
    alloc: Global,
    count: &Term,
    table: &Term,
    known: &mut Vec<Formula>,
) -> Result<(), NoMemory>
    ensures { OnOk result (map formula_tree known.new.items ≡ map formula_tree known.old.items ++ equal (term_tree count.now) (tables.count_of (term_tree table.now)) ∷ []) }
{
    let blocks = count_of(alloc, table.copy(alloc)?)?;
    add_link(alloc, false, count, blocks, known)
}

// Two tables as one: where they differ, that of the last point, grown to a fresh number of blocks.
fn join_tables(
    alloc: Global,
    names: &mut Names,
    trail: &[Mark],
    table: &mut Term,
    other: &Term,
    rests: &mut Rests,
) -> Result<(), NoMemory>
    ensures table { let p = spec.count_pick (used_by names.old) (term_tree table.old) (term_tree other.now) in OnOk result (term_tree table.new ≡ spec.table_with p (term_tree table.old) (spec.last_table (term_tree table.old) (map view_mark trail.now))) }
    ensures left { let p = spec.count_pick (used_by names.old) (term_tree table.old) (term_tree other.now) in OnOk result (map formula_tree rests.new.left.items ≡ map formula_tree rests.old.left.items ++ spec.count_link p (term_tree table.old)) }
    ensures right { let p = spec.count_pick (used_by names.old) (term_tree table.old) (term_tree other.now) in OnOk result (map formula_tree rests.new.right.items ≡ map formula_tree rests.old.right.items ++ spec.count_link p (term_tree other.now)) }
    ensures used { let p = spec.count_pick (used_by names.old) (term_tree table.old) (term_tree other.now) in OnOk result (used_by names.new ≡ after_pick (used_by names.old) count_base p) }
{
    if table.is_same(other) {
        return Ok(());
    }
    let count = count_name(alloc, names)?;
    add_count(alloc, &count, table, &mut rests.left)?;
    add_count(alloc, &count, other, &mut rests.right)?;
    let last = last_table(alloc, table, trail)?;
    *table = grow_of(alloc, last, count)?;
    Ok(())
}

// ---- worlds

// `and` of these; one stands alone.
#[tactic(auto, using(crate::proofs::Joined::no_part, crate::proofs::Joined::only_part, crate::proofs::Joined::many_parts))]
fn all_of(parts: List<Formula>) -> Formula
    ensures { formula_tree result ≡ knowledge.all_of (map formula_tree parts) }
{
    if parts.len() > 1 {
        return Formula::and(parts);
    }
    match parts.into_vec().pop() {
        Some(only) => only,
        None => Formula::True,
    }
}

// The rest of the one side holds, or that of the other.
fn either(alloc: Global, rests: Rests) -> Result<Formula, NoMemory>
    ensures { IfOk result (λ formula. formula_tree formula ≡ or_of (knowledge.all_of (map formula_tree rests.left.items) ∷ knowledge.all_of (map formula_tree rests.right.items) ∷ [])) }
{
    let mut sides = List::new(alloc);
    sides.push(all_of(List::from_vec(rests.left)))?;
    sides.push(all_of(List::from_vec(rests.right)))?;
    Ok(Formula::or(sides))
}

// The slots as one, with what is so on each side.
fn join_slots(
    alloc: Global,
    names: &mut Names,
    bases: &[Base],
    slots: &mut Slots,
    others: &Slots,
    rests: &mut Rests,
) -> Result<(), NoMemory>
    ensures { OnOk result (SlotsJoin (map view_base bases.now) (used_by names.old) (view_slots slots.old) (view_slots others.now) (view_slots slots.new) rests.old rests.new (used_by names.new)) }
{
    join_all(
        alloc,
        names,
        bases,
        &mut slots.terms,
        others.terms.as_slice(),
        rests,
    )?;
    join_trails(&mut slots.trail, others.trail.as_slice());
    join_tables(
        alloc,
        names,
        slots.trail.as_slice(),
        &mut slots.table,
        &others.table,
        rests,
    )
}

// The first one becomes both.
#[tactic(auto, using(crate::proofs::Joined::joined))]
fn join_into(
    alloc: Global,
    names: &mut Names,
    bases: &[Base],
    first: &mut World,
    second: &mut World,
) -> Result<(), NoMemory>
    ensures joined { OnOk result (view_world first.new ≡ spec.join (map view_base bases.now) (used_by names.old) (view_world first.old) (view_world second.old)) }
    ensures used { OnOk result (used_by names.new ≡ spec.used_by_join (map view_base bases.now) (used_by names.old) (view_world first.old) (view_world second.old)) }
{
    let mut rests = divide(&mut first.known, &mut second.known)?;
    join_slots(
        alloc,
        names,
        bases,
        &mut first.slots,
        &second.slots,
        &mut rests,
    )?;
    first.known.push(either(alloc, rests)?)?;
    Ok(())
}

/// Two worlds as one: the common front of what is known, then that the rest of the one side holds, or
/// that of the other, with what each joined slot and the number of blocks is on that side.
pub fn join(
    alloc: Global,
    names: &mut Names,
    bases: &[Base],
    first: World,
    second: World,
) -> Result<World, NoMemory>
    ensures joined { IfOk result (λ world. view_world world ≡ spec.join (map view_base bases.now) (used_by names.old) (view_world first) (view_world second)) }
    ensures used { OnOk result (used_by names.new ≡ spec.used_by_join (map view_base bases.now) (used_by names.old) (view_world first) (view_world second)) }
{
    let mut joined = first;
    let mut other = second;
    join_into(alloc, names, bases, &mut joined, &mut other)?;
    Ok(joined)
}
