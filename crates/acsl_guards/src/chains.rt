// Chains of comparisons that give binders a range (ACSL 2.2).
ghost use Rattle.std.specs.Prelude.{◌≡◌, ◌<◌, length, map, IfOk};
ghost use Rattle.std.specs.List.{list_all};
ghost use Rattle.std.specs.Option.{option_copied, option_map};
ghost use Rattle.c_syntax.specs.View.{view_term, view_var};
ghost use Rattle.acsl_guards.specs.Mentions.{names_of, is_one_of};
ghost use Rattle.acsl_guards.specs.Chains as spec;

use crate::names::{is_name, is_one_of};
use crate::terms::holds_one;
use c_syntax::{BinOp, Term, VarDecl};
use std::alloc::Global;
use wp_base::{List, NoMemory, Str};

fn rises(op: BinOp) -> bool
    ensures { result ≡ spec.rises op }
{
    matches!(op, BinOp::Less | BinOp::AtMost)
}

fn falls(op: BinOp) -> bool
    ensures { result ≡ spec.falls op }
{
    matches!(op, BinOp::Greater | BinOp::AtLeast)
}

fn is_strict(op: BinOp) -> bool
    ensures { result ≡ spec.is_strict op }
{
    matches!(op, BinOp::Less | BinOp::Greater)
}

fn all_rise(ops: &List<BinOp>) -> bool
    ensures { result ≡ list_all spec.rises ops.now }
{
    for op in ops.as_slice() {
        if !rises(*op) {
            return false;
        }
    }
    true
}

/// Whether all comparisons of a chain go down.
pub(crate) fn all_fall(ops: &List<BinOp>) -> bool
    ensures { result ≡ list_all spec.falls ops.now }
{
    for op in ops.as_slice() {
        if !falls(*op) {
            return false;
        }
    }
    true
}

/// Whether the comparison at a place is `<` or `>`.
pub(crate) fn strict_at(ops: &List<BinOp>, at: usize) -> bool
    ensures { result ≡ spec.strict_at ops.now at }
{
    match ops.get(at) {
        Some(op) => is_strict(*op),
        None => false,
    }
}

/// The terms between the ends.
#[tactic(auto, using(crate::proofs::Between::between_seen))]
pub(crate) fn between(terms: &List<Term>) -> &[Term]
    requires { 1 < length terms.now }
    ensures { map view_term result.now ≡ spec.between (map view_term terms.now) }
{
    let terms = terms.as_slice();
    &terms[1..terms.len() - 1]
}

/// Whether a name stands alone as one of these terms.
pub(crate) fn stands_in(name: &Str, terms: &[Term]) -> bool
    ensures { result ≡ spec.stands_in name.now (map view_term terms.now) }
{
    for term in terms {
        if is_name(name, term) {
            return true;
        }
    }
    false
}

fn all_binders(binders: &[VarDecl], terms: &[Term]) -> bool
    ensures { result ≡ list_all (is_one_of (names_of (map view_var binders.now))) (map view_term terms.now) }
{
    for term in terms {
        if !is_one_of(binders, term) {
            return false;
        }
    }
    true
}

// The binders from the first on that stands between the ends.
fn from_first<'a>(binders: &'a [VarDecl], terms: &[Term]) -> &'a [VarDecl]
    ensures { names_of (map view_var result.now) ≡ spec.from_first (map view_term terms.now) (names_of (map view_var binders.now)) }
{
    let mut rest = binders;
    while let Some((first, behind)) = rest.split_first() {
        if stands_in(&first.name, terms) {
            return rest;
        }
        rest = behind;
    }
    rest
}

fn end_holds(alloc: Global, binders: &[VarDecl], end: Option<&Term>) -> Result<bool, NoMemory>
    ensures { IfOk result (λ holds. holds ≡ spec.end_holds (names_of (map view_var binders.now)) (option_map view_term (option_copied end.entry))) }
{
    match end {
        Some(end) => holds_one(alloc, binders, end),
        None => Ok(false),
    }
}

fn ends_free(alloc: Global, binders: &[VarDecl], terms: &List<Term>) -> Result<bool, NoMemory>
    requires { 1 < length terms.now }
    ensures { IfOk result (λ free. free ≡ spec.ends_free (names_of (map view_var binders.now)) (map view_term terms.now)) }
{
    if end_holds(alloc, binders, terms.get(0))? {
        return Ok(false);
    }
    let last = end_holds(alloc, binders, terms.get(terms.len() - 1))?;
    Ok(!last)
}

// At least three terms, comparisons in one direction, and binders alone between the ends.
fn has_form(binders: &[VarDecl], terms: &List<Term>, ops: &List<BinOp>) -> bool
    ensures { result ≡ spec.has_form (names_of (map view_var binders.now)) (map view_term terms.now) ops.now }
{
    if terms.len() < 3 {
        return false;
    }
    if terms.len() - 1 != ops.len() {
        return false;
    }
    if !all_rise(ops) {
        if !all_fall(ops) {
            return false;
        }
    }
    all_binders(binders, between(terms))
}

/// Whether a chain gives the binders between its ends their range.
pub(crate) fn is_guard(
    alloc: Global,
    binders: &[VarDecl],
    terms: &List<Term>,
    ops: &List<BinOp>,
) -> Result<bool, NoMemory>
    ensures { IfOk result (λ is. is ≡ spec.is_guard (names_of (map view_var binders.now)) (map view_term terms.now) ops.now) }
{
    if !has_form(binders, terms, ops) {
        return Ok(false);
    }
    let hidden = from_first(binders, between(terms));
    ends_free(alloc, hidden, terms)
}
