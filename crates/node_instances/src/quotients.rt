// The row at a quotient by a number.
ghost use Rattle.std.specs.Prelude.{◌≡◌, ℕ, ◌-ℤ◌, ◌≤ℤ◌, pos, IfOk};
ghost use Rattle.qed_terms.specs.Tree as tree;
ghost use Rattle.qed_terms.specs.Tree.{Tree};
ghost use Rattle.qed_numbers.specs.Numbers.{number_at, number_in};
ghost use Rattle.term_sketches.specs.Sketches.{Draws};
ghost use Rattle.instance_rows.specs.Rows as rows;
ghost use Rattle.drawn_instances.specs.Drawn.{AreDrawn, row_at};
ghost use Rattle.node_instances.specs.Quotients.{above_zero_case, below_zero_case, smaller_case};

use drawn_instances::{Instances, Seen, instances_of, look, no_instances, two_ids, two_kids};
use qed_terms::{Head, TermOp, TermStore};
use std::alloc::Global;
use term_sketches::{Draft, and_of, at_most, less, number, operation, or_of, slot};
use wp_base::NoMemory;

fn number_of(head: &Head) -> Option<i128>
    ensures { result ≡ number_in head.now }
{
    match head {
        Head::Num(value) => Some(*value),
        _ => None,
    }
}

/// The number that the tree of an id is.
pub fn number_at<S: TermStore>(store: &S, id: S::Id) -> Option<i128>
    requires { S.held store.now id }
    ensures { result ≡ number_at (S.tree store.now id) }
{
    number_of(store.head(id))
}

/// A division by a number, with the slots of its operands.
#[derive(Clone, Copy)]
pub struct Divided {
    pub by: i128,
    pub dividend: usize,
    pub divisor: usize,
}

// ---- terms

/// That a value is less than 0.
pub fn below_zero(alloc: Global, value: usize) -> Draft
    ensures { (f : ℕ → Tree) → Draws f result (rows.below_zero (f value)) }
{
    less(alloc, slot(value), number(alloc, 0))
}

/// One value divided by another.
pub fn quotient(alloc: Global, dividend: usize, divisor: usize) -> Draft
    ensures { (f : ℕ → Tree) → Draws f result (rows.quotient_of (f dividend) (f divisor)) }
{
    operation(alloc, TermOp::Div, slot(dividend), slot(divisor))
}

/// The divisor.
#[tactic(auto, using(drawn_instances::proofs::NumberLaws::number_kept))]
pub fn divisor_of(alloc: Global, at: Divided) -> Draft
    ensures { (f : ℕ → Tree) → Draws f result (tree.num at.by) }
{
    number(alloc, at.by)
}

/// The number before the divisor.
#[tactic(auto, using(drawn_instances::proofs::NumberLaws::number_kept))]
pub fn before_divisor(alloc: Global, at: Divided) -> Draft
    requires { pos 1 ≤ℤ at.by }
    ensures { (f : ℕ → Tree) → Draws f result (tree.num (at.by -ℤ pos 1)) }
{
    number(alloc, at.by - 1)
}

// Its opposite.
#[tactic(auto, using(drawn_instances::proofs::NumberLaws::number_kept))]
fn from_divisor(alloc: Global, at: Divided) -> Draft
    requires { pos 1 ≤ℤ at.by }
    ensures { (f : ℕ → Tree) → Draws f result (tree.num (pos 1 -ℤ at.by)) }
{
    number(alloc, 1 - at.by)
}

fn quotient_at(alloc: Global, at: Divided) -> Draft
    ensures { (f : ℕ → Tree) → Draws f result (rows.quotient_of (f at.dividend) (f at.divisor)) }
{
    quotient(alloc, at.dividend, at.divisor)
}

/// The divisor times a value.
pub fn times_divisor(alloc: Global, at: Divided, factor: Draft) -> Draft
    ensures { (f : ℕ → Tree) → (t : Tree) → Draws f factor t → Draws f result (rows.product_of (tree.num at.by) t) }
{
    operation(alloc, TermOp::Mul, divisor_of(alloc, at), factor)
}

// ---- the formulas

fn above_zero(alloc: Global, at: Divided) -> Draft
    requires { pos 2 ≤ℤ at.by }
    ensures { (f : ℕ → Tree) → Draws f result (above_zero_case at.by (rows.quotient_of (f at.dividend) (f at.divisor)) (f at.dividend)) }
{
    let product = times_divisor(alloc, at, quotient_at(alloc, at));
    let upper = operation(
        alloc,
        TermOp::Add,
        times_divisor(alloc, at, quotient_at(alloc, at)),
        before_divisor(alloc, at),
    );
    let bounds = and_of(
        alloc,
        [
            at_most(alloc, number(alloc, 0), quotient_at(alloc, at)),
            at_most(alloc, quotient_at(alloc, at), slot(at.dividend)),
            at_most(alloc, product, slot(at.dividend)),
            at_most(alloc, slot(at.dividend), upper),
        ],
    );
    or_of(alloc, [below_zero(alloc, at.dividend), bounds])
}

fn smaller(alloc: Global, at: Divided) -> Draft
    ensures { (f : ℕ → Tree) → Draws f result (smaller_case (rows.quotient_of (f at.dividend) (f at.divisor)) (f at.dividend)) }
{
    let next = operation(alloc, TermOp::Add, quotient_at(alloc, at), number(alloc, 1));
    or_of(
        alloc,
        [
            at_most(alloc, slot(at.dividend), number(alloc, 0)),
            at_most(alloc, next, slot(at.dividend)),
        ],
    )
}

fn up_to_zero(alloc: Global, at: Divided) -> Draft
    requires { pos 2 ≤ℤ at.by }
    ensures { (f : ℕ → Tree) → Draws f result (below_zero_case at.by (rows.quotient_of (f at.dividend) (f at.divisor)) (f at.dividend)) }
{
    let product = times_divisor(alloc, at, quotient_at(alloc, at));
    let lower = operation(
        alloc,
        TermOp::Add,
        times_divisor(alloc, at, quotient_at(alloc, at)),
        from_divisor(alloc, at),
    );
    let bounds = and_of(
        alloc,
        [
            at_most(alloc, quotient_at(alloc, at), number(alloc, 0)),
            at_most(alloc, slot(at.dividend), quotient_at(alloc, at)),
            at_most(alloc, slot(at.dividend), product),
            at_most(alloc, lower, slot(at.dividend)),
        ],
    );
    or_of(
        alloc,
        [at_most(alloc, number(alloc, 0), slot(at.dividend)), bounds],
    )
}

/// At a quotient by a number from 2 on: where it lies, by the sign of the dividend.
#[tactic(auto, using(crate::proofs::QuotientLaws::quotient_laws, drawn_instances::proofs::DrawnLaws::instance_laws))]
pub fn cases_of_quotient<S: TermStore>(
    alloc: Global,
    store: &S,
    id: S::Id,
) -> Result<Instances<S::Id>, NoMemory>
    requires { S.held store.now id }
    ensures { IfOk result (λ made. AreDrawn (S.held store.now) (S.tree store.now) made.ids.items made.formulas (row_at rows.cases_of_quotient (S.tree store.now id))) }
{
    let Seen::Div = look(store, id) else {
        return Ok(no_instances(alloc));
    };
    let Some((dividend, divisor)) = two_kids(store, id) else {
        return Ok(no_instances(alloc));
    };
    let Some(by) = number_at(store, divisor) else {
        return Ok(no_instances(alloc));
    };
    if by < 2 {
        return Ok(no_instances(alloc));
    }
    let at = Divided {
        by,
        dividend: 0,
        divisor: 1,
    };
    let ids = two_ids(alloc, dividend, divisor)?;
    let made = instances_of(
        alloc,
        ids,
        [
            above_zero(alloc, at),
            smaller(alloc, at),
            up_to_zero(alloc, at),
        ],
    )?;
    Ok(made)
}
