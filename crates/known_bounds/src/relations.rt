// Relations of two terms, told of bounds and telling bounds.
ghost use Rattle.std.specs.Prelude.{◌≡◌, ◌↔◌, Bool, true, false, not, List, IfSome, OnOk};
ghost use Rattle.qed_terms.specs.Meaning.{Values, World};
ghost use Rattle.known_bounds.specs.Bounds.{AreKept, Extends, relation_truth, term_value};
ghost use Rattle.known_bounds.specs.Ranges.{IsIn, IsOrdered};

use crate::bounds::{Bound, narrow};
use crate::ranges::{above, are_apart, are_ordered, are_same, below};
use crate::terms::{name_of, term_range};
use qed_terms::{FormOp, Term};
use std::alloc::Global;
use wp_base::NoMemory;

/// Two terms in their order: the value of the one is below that of the other, or at most that.
#[derive(Clone, Copy)]
pub(crate) struct Ordered<'a> {
    pub(crate) low: &'a Term,
    pub(crate) high: &'a Term,
    pub(crate) is_strict: bool,
}

// The order that an inequality, or its opposite, sets.
fn order_of<'a>(op: &FormOp, terms: &'a [Term], is_so: bool) -> Option<Ordered<'a>>
    ensures { IfSome result (λ o. (w : World) (env : Values) → (relation_truth w env op.now terms.now ≡ is_so) ↔ IsOrdered o.is_strict (term_value w env o.low.now) (term_value w env o.high.now)) }
{
    if terms.len() != 2 {
        return None;
    }
    match (op, is_so) {
        (FormOp::AtMost, true) => Some(Ordered {
            low: &terms[0],
            high: &terms[1],
            is_strict: false,
        }),
        (FormOp::AtMost, false) => Some(Ordered {
            low: &terms[1],
            high: &terms[0],
            is_strict: true,
        }),
        (FormOp::Less, true) => Some(Ordered {
            low: &terms[0],
            high: &terms[1],
            is_strict: true,
        }),
        (FormOp::Less, false) => Some(Ordered {
            low: &terms[1],
            high: &terms[0],
            is_strict: false,
        }),
        _ => None,
    }
}

// The sides of an equation.
fn sides_of<'a>(op: &FormOp, terms: &'a [Term]) -> Option<(&'a Term, &'a Term)>
    ensures { IfSome result (λ s. (w : World) (env : Values) → (relation_truth w env op.now terms.now ≡ true) ↔ (term_value w env s.0.now ≡ term_value w env s.1.now)) }
{
    match op {
        FormOp::Equal if terms.len() == 2 => Some((&terms[0], &terms[1])),
        _ => None,
    }
}

fn learn_order(
    alloc: Global,
    bounds: &mut Vec<Bound>,
    low: &Term,
    high: &Term,
    is_strict: bool,
) -> Result<(), NoMemory>
    ensures kept { (w : World) (env : Values) → AreKept env bounds.old.items → IsOrdered is_strict (term_value w env low.now) (term_value w env high.now) → OnOk result (AreKept env bounds.new.items) }
    ensures front { OnOk result (Extends bounds.old.items bounds.new.items) }
{
    if let Some(name) = name_of(low) {
        let range = term_range(bounds.as_slice(), high);
        narrow(alloc, bounds, name, below(range, is_strict))?;
    }
    if let Some(name) = name_of(high) {
        let range = term_range(bounds.as_slice(), low);
        narrow(alloc, bounds, name, above(range, is_strict))?;
    }
    Ok(())
}

fn learn_equal(
    alloc: Global,
    bounds: &mut Vec<Bound>,
    left: &Term,
    right: &Term,
) -> Result<(), NoMemory>
    ensures kept { (w : World) (env : Values) → AreKept env bounds.old.items → term_value w env left.now ≡ term_value w env right.now → OnOk result (AreKept env bounds.new.items) }
    ensures front { OnOk result (Extends bounds.old.items bounds.new.items) }
{
    if let Some(name) = name_of(left) {
        let range = term_range(bounds.as_slice(), right);
        narrow(alloc, bounds, name, range)?;
    }
    if let Some(name) = name_of(right) {
        let range = term_range(bounds.as_slice(), left);
        narrow(alloc, bounds, name, range)?;
    }
    Ok(())
}

/// What a relation that is so, or isn't, tells of the names that are sides of it.
pub(crate) fn learn_relation(
    alloc: Global,
    bounds: &mut Vec<Bound>,
    op: &FormOp,
    terms: &[Term],
    is_so: bool,
) -> Result<(), NoMemory>
    ensures kept { (w : World) (env : Values) → AreKept env bounds.old.items → relation_truth w env op.now terms.now ≡ is_so → OnOk result (AreKept env bounds.new.items) }
    ensures front { OnOk result (Extends bounds.old.items bounds.new.items) }
{
    if let Some(order) = order_of(op, terms, is_so) {
        return learn_order(alloc, bounds, order.low, order.high, order.is_strict);
    }
    if !is_so {
        return Ok(());
    }
    match sides_of(op, terms) {
        Some((left, right)) => learn_equal(alloc, bounds, left, right),
        None => Ok(()),
    }
}

/// Whether the bounds tell that a relation is so, or isn't.
pub(crate) fn is_relation_told(bounds: &[Bound], op: &FormOp, terms: &[Term], is_so: bool) -> bool
    ensures { result ≡ true → (w : World) (env : Values) → AreKept env bounds.now → relation_truth w env op.now terms.now ≡ is_so }
{
    if let Some(order) = order_of(op, terms, is_so) {
        let low = term_range(bounds, order.low);
        return are_ordered(low, term_range(bounds, order.high), order.is_strict);
    }
    match sides_of(op, terms) {
        Some((left, right)) => {
            let left = term_range(bounds, left);
            let right = term_range(bounds, right);
            if is_so {
                are_same(left, right)
            } else {
                are_apart(left, right)
            }
        }
        None => false,
    }
}
