// The row at a remainder, a shift to the right and common bits.
ghost use Rattle.std.specs.Prelude.{◌≡◌, ℕ, ◌^◌, ◌<◌, ◌≤◌, ◌≤ℤ◌, pos, IfOk};
ghost use Rattle.wp_base.specs.Blocks.{to_nat};
ghost use Rattle.qed_terms.specs.Tree.{Tree, node, two};
ghost use Rattle.qed_numbers.specs.Numbers.{number_at};
ghost use Rattle.qed_terms.specs.declared.head.Head.TheVariants as head;
ghost use Rattle.qed_terms.specs.declared.head.TermOp.TheVariants as op;
ghost use Rattle.term_sketches.specs.Sketches.{Draws};
ghost use Rattle.instance_rows.specs.Rows as rows;
ghost use Rattle.drawn_instances.specs.Drawn.{AreDrawn, row_at};

use crate::quotients::{Divided, before_divisor, below_zero, number_at, quotient, times_divisor};
use drawn_instances::{Instances, Seen, instances_of, look, no_instances, two_ids, two_kids};
use qed_terms::{TermOp, TermStore};
use std::alloc::Global;
use term_sketches::{Draft, and_of, at_most, equal, number, operation, or_of, slot};
use wp_base::NoMemory;

/// A value between two others.
pub fn between(alloc: Global, low: Draft, high: Draft, value: Draft, again: Draft) -> Draft
    ensures { (f : ℕ → Tree) → (l h t : Tree) → Draws f low l → Draws f high h → Draws f value t → Draws f again t → Draws f result (rows.between l h t) }
{
    and_of(
        alloc,
        [at_most(alloc, low, value), at_most(alloc, again, high)],
    )
}

fn remainder_case(alloc: Global, left: usize, right: usize) -> Draft
    ensures { (f : ℕ → Tree) → Draws f result (rows.remainder_case (f left) (f right)) }
{
    let rest = operation(alloc, TermOp::Mod, slot(left), slot(right));
    let whole = operation(
        alloc,
        TermOp::Mul,
        slot(right),
        quotient(alloc, left, right),
    );
    let difference = operation(alloc, TermOp::Sub, slot(left), whole);
    or_of(
        alloc,
        [
            equal(alloc, slot(right), number(alloc, 0)),
            equal(alloc, rest, difference),
        ],
    )
}

fn common_bits(alloc: Global, left: usize, right: usize) -> Draft
    ensures { (f : ℕ → Tree) → Draws f result (node (head.Term op.BitAnd) (two (f left) (f right))) }
{
    operation(alloc, TermOp::BitAnd, slot(left), slot(right))
}

fn common_bits_case(alloc: Global, left: usize, right: usize) -> Draft
    ensures { (f : ℕ → Tree) → Draws f result (rows.common_bits_case (f left) (f right)) }
{
    let bounds = between(
        alloc,
        number(alloc, 0),
        slot(left),
        common_bits(alloc, left, right),
        common_bits(alloc, left, right),
    );
    or_of(alloc, [below_zero(alloc, left), bounds])
}

// 2^by.
#[tactic(auto, using(crate::proofs::OperatorLaws::power_laws))]
fn power(by: u32) -> u128
    requires { by ≤ 126 }
    ensures power { result ≡ 2 ^ by }
    ensures below { result < 2 ^ 127 }
    ensures some { 0 < result }
{
    1 << by
}

#[tactic(auto, using(crate::proofs::OperatorLaws::divisor_laws))]
fn power_of(by: i128) -> i128
    requires low { pos 1 ≤ℤ by }
    requires high { by ≤ℤ pos 126 }
    ensures power { result ≡ pos (2 ^ to_nat by) }
    ensures some { pos 1 ≤ℤ result }
{
    power(by as u32) as i128
}

// The shift, as a division by this number.
fn shifted(alloc: Global, at: Divided) -> Draft
    ensures { (f : ℕ → Tree) → Draws f result (node (head.Term op.ShiftRight) (two (f at.dividend) (f at.divisor))) }
{
    operation(
        alloc,
        TermOp::ShiftRight,
        slot(at.dividend),
        slot(at.divisor),
    )
}

fn shift_bounds(alloc: Global, at: Divided) -> Draft
    requires { pos 1 ≤ℤ at.by }
    ensures { (f : ℕ → Tree) → Draws f result (rows.shift_bounds at.by (node (head.Term op.ShiftRight) (two (f at.dividend) (f at.divisor))) (f at.dividend)) }
{
    let low = times_divisor(alloc, at, shifted(alloc, at));
    let high = operation(
        alloc,
        TermOp::Add,
        times_divisor(alloc, at, shifted(alloc, at)),
        before_divisor(alloc, at),
    );
    between(alloc, low, high, slot(at.dividend), slot(at.dividend))
}

#[tactic(auto, using(crate::proofs::OperatorLaws::shift_laws, drawn_instances::proofs::DrawnLaws::instance_laws))]
fn at_shift<S: TermStore>(
    alloc: Global,
    store: &S,
    left: S::Id,
    right: S::Id,
) -> Result<Instances<S::Id>, NoMemory>
    requires left { S.held store.now left }
    requires right { S.held store.now right }
    ensures { IfOk result (λ made. AreDrawn (S.held store.now) (S.tree store.now) made.ids.items made.formulas (rows.shift_by (number_at (S.tree store.now right)) (S.tree store.now left) (S.tree store.now right))) }
{
    let Some(by) = number_at(store, right) else {
        return Ok(no_instances(alloc));
    };
    if by < 1 {
        return Ok(no_instances(alloc));
    }
    if by > 126 {
        return Ok(no_instances(alloc));
    }
    let at = Divided {
        by: power_of(by),
        dividend: 0,
        divisor: 1,
    };
    let ids = two_ids(alloc, left, right)?;
    let made = instances_of(alloc, ids, [shift_bounds(alloc, at)])?;
    Ok(made)
}

/// At a remainder, a shift to the right by a number from 1 to 126, and common bits: what bounds them.
#[tactic(auto, using(crate::proofs::OperatorLaws::operator_laws, drawn_instances::proofs::DrawnLaws::instance_laws))]
pub fn bounds_of_operator<S: TermStore>(
    alloc: Global,
    store: &S,
    id: S::Id,
) -> Result<Instances<S::Id>, NoMemory>
    requires { S.held store.now id }
    ensures { IfOk result (λ made. AreDrawn (S.held store.now) (S.tree store.now) made.ids.items made.formulas (row_at rows.bounds_of_operator (S.tree store.now id))) }
{
    let Some((left, right)) = two_kids(store, id) else {
        return Ok(no_instances(alloc));
    };
    match look(store, id) {
        Seen::Mod => {
            let ids = two_ids(alloc, left, right)?;
            let made = instances_of(alloc, ids, [remainder_case(alloc, 0, 1)])?;
            Ok(made)
        }
        Seen::ShiftRight => {
            let made = at_shift(alloc, store, left, right)?;
            Ok(made)
        }
        Seen::BitAnd => {
            let ids = two_ids(alloc, left, right)?;
            let made = instances_of(alloc, ids, [common_bits_case(alloc, 0, 1)])?;
            Ok(made)
        }
        _ => Ok(no_instances(alloc)),
    }
}
