// Where the value of a term lies.
ghost use Rattle.std.specs.Prelude.{◌≡◌, ℤ, true, List, map, IfSome, Some};
ghost use Rattle.qed_terms.specs.Meaning.{Values, World};
ghost use Rattle.qed_terms.specs.declared.head.TermOp.TheVariants as op;
ghost use Rattle.qed_terms.specs.declared.term.Term.TheVariants as term_is;
ghost use Rattle.known_bounds.specs.Bounds.{AreKept, term_value};
ghost use Rattle.known_bounds.specs.Ranges.{IsIn};

use crate::bounds::{Bound, range_of_name};
use crate::ranges::{Range, anything, difference, either, exactly, sum};
use qed_terms::{Sort, Term, TermOp};
use wp_base::Str;

fn integer_name(name: &Str, sort: Sort) -> Option<&Str>
    ensures { IfSome result (λ found. (w : World) (env : Values) → term_value w env (term_is.Var name.now sort) ≡ env.ints found.now) }
{
    match sort {
        Sort::Int => Some(name),
        Sort::Memory | Sort::Table => None,
    }
}

/// The name of a term that is an integer's name.
pub(crate) fn name_of(term: &Term) -> Option<&Str>
    ensures { IfSome result (λ name. (w : World) (env : Values) → term_value w env term.now ≡ env.ints name.now) }
{
    match term {
        Term::Var(name, sort) => integer_name(name, *sort),
        _ => None,
    }
}

#[cycle(ranges)]
fn sum_range(bounds: &[Bound], kids: &[Term]) -> Range
    ensures { (w : World) (env : Values) → AreKept env bounds.now → IsIn result (term_value w env (term_is.Op op.Add kids.now)) }
{
    let mut total = exactly(&0);
    for kid in kids {
        total = sum(total, term_range(bounds, kid));
    }
    total
}

#[cycle(ranges)]
fn difference_range(bounds: &[Bound], kids: &[Term]) -> Range
    ensures { (w : World) (env : Values) → AreKept env bounds.now → IsIn result (term_value w env (term_is.Op op.Sub kids.now)) }
{
    if kids.len() != 2 {
        return anything();
    }
    difference(term_range(bounds, &kids[0]), term_range(bounds, &kids[1]))
}

#[cycle(ranges)]
fn opposite_range(bounds: &[Bound], kids: &[Term]) -> Range
    ensures { (w : World) (env : Values) → AreKept env bounds.now → IsIn result (term_value w env (term_is.Op op.Neg kids.now)) }
{
    if kids.len() != 1 {
        return anything();
    }
    difference(exactly(&0), term_range(bounds, &kids[0]))
}

/// Where the value of a term lies, by the bounds of its names.
#[cycle(ranges)]
pub(crate) fn term_range(bounds: &[Bound], term: &Term) -> Range
    ensures { (w : World) (env : Values) → AreKept env bounds.now → IsIn result (term_value w env term.now) }
{
    match term {
        Term::Num(value) => exactly(value),
        Term::Var(_, _) => match name_of(term) {
            Some(name) => range_of_name(bounds, name),
            None => anything(),
        },
        Term::Op(TermOp::Add, kids) => sum_range(bounds, kids.as_slice()),
        Term::Op(TermOp::Sub, kids) => difference_range(bounds, kids.as_slice()),
        Term::Op(TermOp::Neg, kids) => opposite_range(bounds, kids.as_slice()),
        Term::Ite(_, then, other) => {
            either(
                term_range(bounds, then.get()),
                term_range(bounds, other.get()),
            )
        }
        _ => anything(),
    }
}
