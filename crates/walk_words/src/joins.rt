// Two worlds as one, where paths meet.
ghost use Rattle.std.specs.Prelude.{◌≡◌, ◌≤◌, ◌∷◌, [], ◌++◌, not, length, map, IfOk, OnOk};
ghost use Rattle.qed_terms.specs.Fresh.{used_in};
ghost use Rattle.qed_terms.specs.Order.{same};
ghost use Rattle.qed_terms.specs.Tree.{or_of};
ghost use Rattle.qed_terms.specs.View.{formula_tree, term_tree};
ghost use Rattle.walk_steps.specs.World.{pick, after_pick, after_picks, or_own, chosen};
ghost use Rattle.walk_steps.specs.Join as spec;
ghost use Rattle.walk_words.specs.View.{view_split, view_world};

use crate::names::{link, new_name};
use crate::worlds::{World, extend_slots};
use qed_terms::{Formula, Fresh, Term};
use std::alloc::Global;
use wp_base::{List, NoMemory, Str};

// ---- what is known

// How many formulas at the front are the same.
fn common(left: &[Formula], right: &[Formula]) -> usize
    ensures is { result ≡ length (spec.split (map formula_tree left.now) (map formula_tree right.now)).front }
    ensures in_left { result ≤ length left.now }
    ensures in_right { result ≤ length right.now }
{
    let mut at = 0;
    while at < left.len() && at < right.len() && left[at].is_same(&right[at]) {
        at += 1;
    }
    at
}

/// What holds on one side alone, and on the other.
#[derive(Drop)]
pub struct Rests {
    pub left: Vec<Formula>,
    pub right: Vec<Formula>,
}

/// The longest common front of two lists, and what follows it in each.
#[derive(Drop)]
pub struct Split {
    pub front: Vec<Formula>,
    pub rests: Rests,
}

#[tactic(auto, using(crate::proofs::Joined::split_at))]
fn divide(left: Vec<Formula>, right: Vec<Formula>) -> Result<Split, NoMemory>
    ensures { IfOk result (λ s. view_split s ≡ spec.split (map formula_tree left.items) (map formula_tree right.items)) }
{
    let at = common(left.as_slice(), right.as_slice());
    let mut front = left;
    let left = front.split_off(at)?;
    let mut same = right;
    let right = same.split_off(at)?;
    let rests = Rests { left, right };
    Ok(Split { front, rests })
}

// ---- slots

// Two terms as one: a fresh name where they differ, with what it is on each side.
fn join_terms(
    alloc: Global,
    fresh: &mut Fresh,
    base: &Str,
    first: &Term,
    second: &Term,
    rests: &mut Rests,
) -> Result<Term, NoMemory>
    ensures term { let p = pick (used_in fresh.old) base.now (not (same (term_tree first.now) (term_tree second.now))) in IfOk result (λ term. term_tree term ≡ or_own p (term_tree first.now)) }
    ensures left { let p = pick (used_in fresh.old) base.now (not (same (term_tree first.now) (term_tree second.now))) in OnOk result (map formula_tree rests.new.left.items ≡ map formula_tree rests.old.left.items ++ spec.link p (term_tree first.now)) }
    ensures right { let p = pick (used_in fresh.old) base.now (not (same (term_tree first.now) (term_tree second.now))) in OnOk result (map formula_tree rests.new.right.items ≡ map formula_tree rests.old.right.items ++ spec.link p (term_tree second.now)) }
    ensures used { let p = pick (used_in fresh.old) base.now (not (same (term_tree first.now) (term_tree second.now))) in OnOk result (used_in fresh.new ≡ after_pick (used_in fresh.old) base.now p) }
{
    if first.is_same(second) {
        return first.copy(alloc);
    }
    let name = new_name(alloc, fresh, base)?;
    link(alloc, &name, first.copy(alloc)?, &mut rests.left)?;
    link(alloc, &name, second.copy(alloc)?, &mut rests.right)?;
    Ok(name)
}

// The slots of two worlds; where one has no partner, that of the first one stays.
fn join_all(
    alloc: Global,
    fresh: &mut Fresh,
    bases: &[Str],
    first: &[Term],
    second: &[Term],
    rests: &mut Rests,
) -> Result<Vec<Term>, NoMemory>
    ensures slots { let ps = spec.picks bases.now (used_in fresh.old) (map term_tree first.now) (map term_tree second.now) in IfOk result (λ slots. map term_tree slots.items ≡ chosen ps (map term_tree first.now)) }
    ensures left { let ps = spec.picks bases.now (used_in fresh.old) (map term_tree first.now) (map term_tree second.now) in OnOk result (map formula_tree rests.new.left.items ≡ map formula_tree rests.old.left.items ++ spec.links ps (map term_tree first.now)) }
    ensures right { let ps = spec.picks bases.now (used_in fresh.old) (map term_tree first.now) (map term_tree second.now) in OnOk result (map formula_tree rests.new.right.items ≡ map formula_tree rests.old.right.items ++ spec.links ps (map term_tree second.now)) }
    ensures used { let ps = spec.picks bases.now (used_in fresh.old) (map term_tree first.now) (map term_tree second.now) in OnOk result (used_in fresh.new ≡ after_picks bases.now ps (used_in fresh.old)) }
{
    let pairs = bases.len().min(first.len().min(second.len()));
    let mut slots = Vec::new(alloc);
    for at in 0..pairs {
        slots.push(join_terms(alloc, fresh, &bases[at], &first[at], &second[at], rests)?)?;
    }
    extend_slots(alloc, first, pairs, &mut slots)?;
    Ok(slots)
}

// ---- worlds

// `and` of these; one stands alone.
#[tactic(auto, using(crate::proofs::Joined::no_part, crate::proofs::Joined::only_part, crate::proofs::Joined::many_parts))]
fn all_of(parts: List<Formula>) -> Formula
    ensures { formula_tree result ≡ spec.all_of (map formula_tree parts) }
{
    if parts.len() > 1 {
        return Formula::and(parts);
    }
    match parts.into_vec().pop() {
        Some(only) => only,
        None => Formula::True,
    }
}

// The rest of the one side holds, or that of the other.
fn either(alloc: Global, rests: Rests) -> Result<Formula, NoMemory>
    ensures { IfOk result (λ formula. formula_tree formula ≡ or_of (spec.all_of (map formula_tree rests.left.items) ∷ spec.all_of (map formula_tree rests.right.items) ∷ [])) }
{
    let mut sides = List::new(alloc);
    sides.push(all_of(List::from_vec(rests.left)))?;
    sides.push(all_of(List::from_vec(rests.right)))?;
    Ok(Formula::or(sides))
}

/// Two worlds as one: the common front of what is known, then that the rest of the one side holds, or
/// that of the other, with what each joined slot is on that side.
#[tactic(auto, using(crate::proofs::Joined::joined))]
pub fn join(
    alloc: Global,
    fresh: &mut Fresh,
    bases: &[Str],
    first: World,
    second: World,
) -> Result<World, NoMemory>
    ensures joined { IfOk result (λ world. view_world world ≡ spec.join bases.now (used_in fresh.old) (view_world first) (view_world second)) }
    ensures used { OnOk result (used_in fresh.new ≡ spec.used_by_join bases.now (used_in fresh.old) (view_world first) (view_world second)) }
{
    let Split {
        mut front,
        mut rests,
    } = divide(first.known, second.known)?;
    let slots = join_all(
        alloc,
        fresh,
        bases,
        first.slots.as_slice(),
        second.slots.as_slice(),
        &mut rests,
    )?;
    front.push(either(alloc, rests)?)?;
    Ok(World {
        known: front,
        slots,
    })
}
