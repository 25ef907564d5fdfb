// Casts and choices (ACSL 2.2.3).
ghost use Rattle.std.specs.Prelude.{◌≡◌, Some, map, IfOk};
ghost use Rattle.acsl_encode.specs.Encode as spec;
ghost use Rattle.acsl_encode.specs.Readings.{integer};
ghost use Rattle.annotation_heads.specs.Pairs as pairs;
ghost use Rattle.annotation_heads.specs.declared.conversions.Way.TheVariants as way;
ghost use Rattle.wp_base.specs.declared.kinds.Kind.TheVariants as kind;
ghost use Rattle.annotation_heads.specs.View.{view_pointer, view_terms};
ghost use Rattle.c_kinds.specs.Conversions as kinds;
ghost use Rattle.qed_terms.specs.Tree.{ite};
ghost use Rattle.qed_terms.specs.View.{formula_tree, term_tree};
ghost use Rattle.term_drafts.specs.Drafts.{FormulaIs, TermIs};

use crate::operands::{equal, over_one};
use crate::pairs::{both_formulas, both_integers, both_pointers, first_kid, first_kids};
use crate::pointers::pointer_at;
use crate::terms::{Pointer, Shape, Terms, shape_of};
use c_kinds::{Machdep, range};
use qed_terms::{Formula, Term, TermOp};
use std::alloc::Global;
use term_drafts::{
    FormulaDraft, TermDraft, chosen as choice, conjunction, formula_copied, formula_ready,
    implication, negation, ready,
};
use wp_base::{Kind, List, NoMemory};

// ---- casts

/// Whether each number of the second kind is one of the first.
pub fn holds_all(model: Machdep, kind: Kind, other: Kind) -> bool
    ensures { result ≡ kinds.holds_all model kind other }
{
    let (all, some) = (range(model, kind), range(model, other));
    all.low <= some.low && some.high <= all.high
}

fn truth_of(alloc: Global, term: Term) -> Result<Term, NoMemory>
    ensures { IfOk result (λ made. term_tree made ≡ spec.wrapped kind.Bool (term_tree term)) }
{
    let is_zero = equal(alloc, term, Term::number(0))?;
    Term::ite(alloc, is_zero, Term::number(0), Term::number(1))
}

fn wrapped(alloc: Global, kind: Kind, term: Term) -> Result<Term, NoMemory>
    ensures { IfOk result (λ made. term_tree made ≡ spec.wrapped kind (term_tree term)) }
{
    match kind {
        Kind::Bool => truth_of(alloc, term),
        Kind::Char
        | Kind::SChar
        | Kind::UChar
        | Kind::Short
        | Kind::UShort
        | Kind::Int
        | Kind::UInt
        | Kind::Long
        | Kind::ULong
        | Kind::LLong
        | Kind::ULLong => over_one(alloc, TermOp::Wrap(kind), term),
    }
}

// The kind of C that an integer has.
fn kind_of(shape: Shape) -> Option<Kind>
    ensures { result ≡ pairs.kind_in shape }
{
    match shape {
        Shape::Integer(kind) => kind,
        Shape::Truth => None,
        Shape::Address => None,
        Shape::Variable(_) => None,
        Shape::Other => None,
    }
}

fn converted_integer(
    alloc: Global,
    model: Machdep,
    kind: Kind,
    from: Option<Kind>,
    term: Term,
) -> Result<Term, NoMemory>
    ensures { IfOk result (λ made. integer (Some kind) (term_tree made) ≡ spec.converted model kind (integer from (term_tree term))) }
{
    match from {
        Some(other) => {
            if holds_all(model, kind, other) {
                Ok(term)
            } else {
                wrapped(alloc, kind, term)
            }
        }
        None => wrapped(alloc, kind, term),
    }
}

#[tactic(auto, using(crate::proofs::Given::given_laws))]
fn converted_from(
    alloc: Global,
    model: Machdep,
    kind: Kind,
    from: Option<Kind>,
    terms: Terms,
) -> Result<Terms, NoMemory>
    ensures { IfOk result (λ made. view_terms made ≡ spec.with_one (λ t. spec.converted model kind (integer from t)) (spec.as_integer (view_terms terms))) }
{
    let Some(term) = terms.into_integer(alloc)? else {
        return Ok(Terms::Nothing);
    };
    let term = converted_integer(alloc, model, kind, from, term)?;
    Ok(Terms::Integer(Some(kind), term))
}

/// An integer as one of a kind.
#[tactic(auto, using(crate::proofs::Paired::converted_laws))]
pub fn converted(
    alloc: Global,
    model: Machdep,
    kind: Kind,
    kids: List<Terms>,
) -> Result<Terms, NoMemory>
    ensures { IfOk result (λ made. view_terms made ≡ spec.converted model kind (spec.first (map view_terms kids))) }
{
    let first = first_kid(kids);
    let from = kind_of(shape_of(&first));
    let made = converted_from(alloc, model, kind, from, first)?;
    Ok(made)
}

// ---- choices

/// How one of two values is chosen.
#[derive(Clone, Copy)]
pub enum Way {
    Truths,
    Integers,
    Pointers,
    Nowhere,
}

fn way_of(first: Shape, second: Shape) -> Way
    ensures { result ≡ pairs.way_of first second }
{
    match (first, second) {
        (Shape::Truth, Shape::Truth) => Way::Truths,
        (Shape::Truth, Shape::Integer(_)) => Way::Integers,
        (Shape::Integer(_), Shape::Integer(_)) => Way::Integers,
        (Shape::Integer(_), Shape::Truth) => Way::Integers,
        (Shape::Address, Shape::Address) => Way::Pointers,
        _ => Way::Nowhere,
    }
}

// Where the test is true the first one, and where it is false the second one.
fn by_test(alloc: Global, test: &Formula, first: Formula, second: Formula) -> FormulaDraft
    ensures { FormulaIs result (pairs.formula_chosen (formula_tree test.now) (formula_tree first) (formula_tree second)) }
{
    let is_false = negation(alloc, formula_copied(alloc, test));
    let first = implication(alloc, formula_copied(alloc, test), formula_ready(first));
    let second = implication(alloc, is_false, formula_ready(second));
    conjunction(alloc, first, second)
}

#[tactic(auto, using(crate::proofs::Paired::both_laws, term_drafts::proofs::Drafted::draft_laws))]
fn truths_chosen(
    alloc: Global,
    test: &Formula,
    first: Terms,
    second: Terms,
) -> Result<Terms, NoMemory>
    ensures { IfOk result (λ made. view_terms made ≡ pairs.chosen_by way.Truths (formula_tree test.now) (view_terms first) (view_terms second)) }
{
    let Some(both) = both_formulas(alloc, first, second)? else {
        return Ok(Terms::Nothing);
    };
    let formula = by_test(alloc, test, both.first, both.second)?;
    Ok(Terms::Truth(formula))
}

fn integer_by_test(alloc: Global, test: &Formula, first: Term, second: Term) -> TermDraft
    ensures { TermIs result (ite (formula_tree test.now) (term_tree first) (term_tree second)) }
{
    choice(
        alloc,
        formula_copied(alloc, test),
        ready(first),
        ready(second),
    )
}

#[tactic(auto, using(crate::proofs::Paired::both_laws, term_drafts::proofs::Drafted::draft_laws))]
fn integers_chosen(
    alloc: Global,
    test: &Formula,
    first: Terms,
    second: Terms,
) -> Result<Terms, NoMemory>
    ensures { IfOk result (λ made. view_terms made ≡ pairs.chosen_by way.Integers (formula_tree test.now) (view_terms first) (view_terms second)) }
{
    let Some(both) = both_integers(alloc, first, second)? else {
        return Ok(Terms::Nothing);
    };
    let term = integer_by_test(alloc, test, both.first, both.second)?;
    Ok(Terms::Integer(None, term))
}

fn pointer_by_test(
    alloc: Global,
    test: &Formula,
    first: Pointer,
    second: Pointer,
) -> Result<Terms, NoMemory>
    ensures { IfOk result (λ made. view_terms made ≡ pairs.pointer_chosen (formula_tree test.now) (view_pointer first) (view_pointer second)) }
{
    let block = integer_by_test(alloc, test, first.block, second.block);
    let offset = integer_by_test(alloc, test, first.offset, second.offset);
    let made = pointer_at(block, offset)?;
    Ok(made)
}

#[tactic(auto, using(crate::proofs::Paired::both_laws))]
fn pointers_chosen(
    alloc: Global,
    test: &Formula,
    first: Terms,
    second: Terms,
) -> Result<Terms, NoMemory>
    ensures { IfOk result (λ made. view_terms made ≡ pairs.chosen_by way.Pointers (formula_tree test.now) (view_terms first) (view_terms second)) }
{
    let Some(both) = both_pointers(first, second) else {
        return Ok(Terms::Nothing);
    };
    let made = pointer_by_test(alloc, test, both.first, both.second)?;
    Ok(made)
}

#[tactic(auto, using(crate::proofs::Paired::either_way))]
fn either(alloc: Global, test: &Formula, first: Terms, second: Terms) -> Result<Terms, NoMemory>
    ensures { IfOk result (λ made. view_terms made ≡ pairs.chosen_by (pairs.way_of (pairs.shape_in (view_terms first)) (pairs.shape_in (view_terms second))) (formula_tree test.now) (view_terms first) (view_terms second)) }
{
    match way_of(shape_of(&first), shape_of(&second)) {
        Way::Truths => {
            let made = truths_chosen(alloc, test, first, second)?;
            Ok(made)
        }
        Way::Integers => {
            let made = integers_chosen(alloc, test, first, second)?;
            Ok(made)
        }
        Way::Pointers => {
            let made = pointers_chosen(alloc, test, first, second)?;
            Ok(made)
        }
        Way::Nowhere => Ok(Terms::Nothing),
    }
}

/// `?:`.
#[tactic(auto, using(crate::proofs::Paired::choice_laws))]
pub fn chosen(alloc: Global, kids: List<Terms>) -> Result<Terms, NoMemory>
    ensures { IfOk result (λ made. view_terms made ≡ spec.with_one (spec.either (spec.second (map view_terms kids)) (spec.third (map view_terms kids))) (spec.as_formula (spec.first (map view_terms kids)))) }
{
    let kids = first_kids(kids);
    let Some(test) = kids.first.into_formula(alloc)? else {
        return Ok(Terms::Nothing);
    };
    let made = either(alloc, &test, kids.second, kids.third)?;
    Ok(made)
}
