// The operator `?:` (ACSL 2.2.3).
ghost use Rattle.std.specs.Prelude.{◌≡◌, IfOk};
ghost use Rattle.acsl_rules.specs.Choices as spec;
ghost use Rattle.acsl_trees.specs.Operands.{view_operand};
ghost use Rattle.c_answers.specs.Answers.{Gives};

use crate::makers::three;
use crate::sorts::{
    alike, is_integer, is_null, is_pointer, is_unknown, is_untyped_null, sort_copy,
};
use crate::values::{beside, truth, valued};
use acsl_trees::{Head, Operand, Sort};
use c_answers::refused;
use std::alloc::Global;
use wp_base::{Line, NoMemory, Rule, Stop};

fn with_null(null: bool, sort: Sort) -> Sort
    ensures { result ≡ spec.with_null null sort }
{
    match sort {
        Sort::Pointer(ty, _) => Sort::Pointer(ty, null),
        Sort::Object(ty, label) => Sort::Object(ty, label),
        Sort::Integer(known) => Sort::Integer(known),
        Sort::Unknown => Sort::Unknown,
    }
}

// Of two pointers to one type the type of the first.
fn joint(alloc: Global, first: &Sort, second: &Sort) -> Result<Sort, NoMemory>
    ensures { IfOk result (λ s. s ≡ spec.joint first.now second.now) }
{
    let null = is_untyped_null(first) && is_untyped_null(second);
    Ok(with_null(null, sort_copy(alloc, first)?))
}

fn pointer_arms(alloc: Global, first: &Sort, second: &Sort) -> Result<Option<Sort>, NoMemory>
    ensures { IfOk result (λ s. s ≡ spec.pointer_arms first.now second.now) }
{
    if alike(alloc, first, second)? {
        return Ok(Some(joint(alloc, first, second)?));
    }
    if is_pointer(first) && is_null(second) {
        return Ok(Some(sort_copy(alloc, first)?));
    }
    if is_null(first) && is_pointer(second) {
        return Ok(Some(sort_copy(alloc, second)?));
    }
    Ok(None)
}

// The sort of the whole; none where the arms don't fit.
fn arms(alloc: Global, first: &Sort, second: &Sort) -> Result<Option<Sort>, NoMemory>
    ensures { IfOk result (λ s. s ≡ spec.arms first.now second.now) }
{
    if is_unknown(first) || is_unknown(second) {
        return Ok(Some(Sort::Unknown));
    }
    if is_integer(first) && is_integer(second) {
        return Ok(Some(Sort::Integer(None)));
    }
    pointer_arms(alloc, first, second)
}

fn choice(
    alloc: Global,
    test: Operand,
    first: Operand,
    second: Operand,
    sort: Sort,
) -> Result<Operand, NoMemory>
    ensures { IfOk result (λ x. view_operand x ≡ spec.choice (view_operand test) (view_operand first) (view_operand second) sort) }
{
    let test = truth(alloc, test)?;
    let Operand {
        tree: one,
        sort: one_sort,
    } = first;
    let Operand {
        tree: other,
        sort: other_sort,
    } = second;
    let one = beside(alloc, &other_sort, &one_sort, one);
    let other = beside(alloc, &one_sort, &other_sort, other);
    let tree = three(alloc, Head::Choose, test, one, other)?;
    Ok(Operand { tree, sort })
}

fn conditional_values(
    alloc: Global,
    line: Line,
    test: Operand,
    first: Operand,
    second: Operand,
) -> Result<Operand, Stop>
    ensures { Gives view_operand result (spec.conditional_values line (view_operand test) (view_operand first) (view_operand second)) }
{
    match arms(alloc, &first.sort, &second.sort)? {
        Some(sort) => Ok(choice(alloc, test, first, second, sort)?),
        None => Err(refused(Rule::Typing, line)),
    }
}

/// `test ? first : second`.
#[tactic(auto, using(c_answers::proofs::After::after_laws), unfolding(crate::specs::Choices::conditional))]
pub fn conditional(
    alloc: Global,
    line: Line,
    test: Operand,
    first: Operand,
    second: Operand,
) -> Result<Operand, Stop>
    ensures { Gives view_operand result (spec.conditional line (view_operand test) (view_operand first) (view_operand second)) }
{
    let test = valued(alloc, line, test)?;
    let first = valued(alloc, line, first)?;
    let second = valued(alloc, line, second)?;
    conditional_values(alloc, line, test, first, second)
}
