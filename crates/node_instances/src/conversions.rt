// The row at a conversion.
ghost use Rattle.std.specs.Prelude.{◌≡◌, ◌⊎◌, ℕ, ℤ, ◌+ℤ◌, ◌-ℤ◌, pos, IfOk};
ghost use Rattle.qed_terms.specs.Tree as tree;
ghost use Rattle.qed_terms.specs.Tree.{Tree};
ghost use Rattle.term_sketches.specs.Sketches.{Draws};
ghost use Rattle.instance_rows.specs.Rows as rows;
ghost use Rattle.drawn_instances.specs.Drawn.{AreDrawn, row_at};
ghost use Rattle.node_instances.specs.Ranges.{IsSmall};

use crate::operators::between;
use crate::ranges::{Range, range_of};
use drawn_instances::{Instances, Seen, instances_of, look, no_instances, one_id, one_kid};
use qed_terms::{Head, TermOp, TermStore};
use std::alloc::Global;
use term_sketches::{Draft, equal, less, number, operation, or_of, over, slot};
use wp_base::{Kind, NoMemory};

fn is_bool(kind: Kind) -> bool
    ensures { result ≡ rows.is_bool kind }
{
    match kind {
        Kind::Bool => true,
        _ => false,
    }
}

// ---- numbers of a range

#[tactic(auto, using(drawn_instances::proofs::NumberLaws::number_kept))]
fn lowest(alloc: Global, range: Range) -> Draft
    ensures { (f : ℕ → Tree) → Draws f result (tree.num range.low) }
{
    number(alloc, range.low)
}

#[tactic(auto, using(drawn_instances::proofs::NumberLaws::number_kept))]
fn highest(alloc: Global, range: Range) -> Draft
    ensures { (f : ℕ → Tree) → Draws f result (tree.num range.high) }
{
    number(alloc, range.high)
}

#[tactic(auto, using(drawn_instances::proofs::NumberLaws::number_kept))]
fn turn(alloc: Global, range: Range) -> Draft
    ensures { (f : ℕ → Tree) → Draws f result (tree.num range.many) }
{
    number(alloc, range.many)
}

#[tactic(auto, using(drawn_instances::proofs::NumberLaws::number_kept))]
fn above(alloc: Global, range: Range) -> Draft
    requires { IsSmall range }
    ensures { (f : ℕ → Tree) → Draws f result (tree.num (range.high +ℤ pos 1)) }
{
    number(alloc, range.high + 1)
}

#[tactic(auto, using(drawn_instances::proofs::NumberLaws::number_kept))]
fn turn_above(alloc: Global, range: Range) -> Draft
    requires { IsSmall range }
    ensures { (f : ℕ → Tree) → Draws f result (tree.num (range.high +ℤ range.many)) }
{
    number(alloc, range.high + range.many)
}

#[tactic(auto, using(drawn_instances::proofs::NumberLaws::number_kept))]
fn below(alloc: Global, range: Range) -> Draft
    requires { IsSmall range }
    ensures { (f : ℕ → Tree) → Draws f result (tree.num (range.low -ℤ pos 1)) }
{
    number(alloc, range.low - 1)
}

#[tactic(auto, using(drawn_instances::proofs::NumberLaws::number_kept))]
fn turn_below(alloc: Global, range: Range) -> Draft
    requires { IsSmall range }
    ensures { (f : ℕ → Tree) → Draws f result (tree.num (range.low -ℤ range.many)) }
{
    number(alloc, range.low - range.many)
}

// ---- the formulas

fn converted(alloc: Global, kind: Kind, value: usize) -> Draft
    ensures { (f : ℕ → Tree) → Draws f result (rows.wrap_tree kind (f value)) }
{
    over(alloc, Head::Term(TermOp::Wrap(kind)), [slot(value)])
}

// Where a value lies outside of a range, or else a formula.
fn outside_or(alloc: Global, low: Draft, high: Draft, value: usize, formula: Draft) -> Draft
    ensures { (f : ℕ → Tree) → (l h : ℤ) → (t : Tree) → Draws f low (tree.num l) → Draws f high (tree.num h) → Draws f formula t → Draws f result (rows.outside_or l h (f value) t) }
{
    or_of(
        alloc,
        [
            less(alloc, slot(value), low),
            less(alloc, high, slot(value)),
            formula,
        ],
    )
}

fn in_range(alloc: Global, range: Range, kind: Kind, value: usize) -> Draft
    ensures { (f : ℕ → Tree) → Draws f result (rows.between (tree.num range.low) (tree.num range.high) (rows.wrap_tree kind (f value))) }
{
    between(
        alloc,
        lowest(alloc, range),
        highest(alloc, range),
        converted(alloc, kind, value),
        converted(alloc, kind, value),
    )
}

fn kept(alloc: Global, range: Range, kind: Kind, value: usize) -> Draft
    ensures { (f : ℕ → Tree) → Draws f result (rows.outside_or range.low range.high (f value) (tree.equal (rows.wrap_tree kind (f value)) (f value))) }
{
    let same = equal(alloc, converted(alloc, kind, value), slot(value));
    outside_or(
        alloc,
        lowest(alloc, range),
        highest(alloc, range),
        value,
        same,
    )
}

// Past the greatest number, less than a turn away.
fn turned_down(alloc: Global, range: Range, kind: Kind, value: usize) -> Draft
    requires { IsSmall range }
    ensures { (f : ℕ → Tree) → Draws f result (rows.outside_or (range.high +ℤ pos 1) (range.high +ℤ range.many) (f value) (tree.equal (rows.wrap_tree kind (f value)) (rows.difference_of (f value) (tree.num range.many)))) }
{
    let turned = operation(alloc, TermOp::Sub, slot(value), turn(alloc, range));
    let same = equal(alloc, converted(alloc, kind, value), turned);
    outside_or(
        alloc,
        above(alloc, range),
        turn_above(alloc, range),
        value,
        same,
    )
}

// Before the least number, less than a turn away.
fn turned_up(alloc: Global, range: Range, kind: Kind, value: usize) -> Draft
    requires { IsSmall range }
    ensures { (f : ℕ → Tree) → Draws f result (rows.outside_or (range.low -ℤ range.many) (range.low -ℤ pos 1) (f value) (tree.equal (rows.wrap_tree kind (f value)) (rows.sum_of (f value) (tree.num range.many)))) }
{
    let turned = operation(alloc, TermOp::Add, slot(value), turn(alloc, range));
    let same = equal(alloc, converted(alloc, kind, value), turned);
    outside_or(
        alloc,
        turn_below(alloc, range),
        below(alloc, range),
        value,
        same,
    )
}

/// At a conversion: it lies in the range of its kind, and is the value, where that lies less than a turn away, a turn less or more at most. `long` has 32
/// or 64 bits.
#[tactic(auto, using(crate::proofs::ConversionLaws::wrap_laws, crate::proofs::RangeLaws::small_range, drawn_instances::proofs::DrawnLaws::instance_laws))]
pub fn cases_of_wrap<S: TermStore>(
    alloc: Global,
    store: &S,
    long_bits: u8,
    id: S::Id,
) -> Result<Instances<S::Id>, NoMemory>
    requires held { S.held store.now id }
    requires width { (long_bits ≡ 32) ⊎ (long_bits ≡ 64) }
    ensures { IfOk result (λ made. AreDrawn (S.held store.now) (S.tree store.now) made.ids.items made.formulas (row_at (rows.cases_of_wrap long_bits) (S.tree store.now id))) }
{
    let Seen::Wrap(kind) = look(store, id) else {
        return Ok(no_instances(alloc));
    };
    let Some(value) = one_kid(store, id) else {
        return Ok(no_instances(alloc));
    };
    if is_bool(kind) {
        return Ok(no_instances(alloc));
    }
    let range = range_of(long_bits, kind);
    let ids = one_id(alloc, value)?;
    let made = instances_of(
        alloc,
        ids,
        [
            in_range(alloc, range, kind, 0),
            kept(alloc, range, kind, 0),
            turned_down(alloc, range, kind, 0),
            turned_up(alloc, range, kind, 0),
        ],
    )?;
    Ok(made)
}
