// Comparisons of integers and of pointers (ACSL 2.2.3).
ghost use Rattle.std.specs.Prelude.{◌≡◌, IfOk};
ghost use Rattle.acsl_rules.specs.Operators as spec;
ghost use Rattle.acsl_trees.specs.Operands.{view_operand};
ghost use Rattle.acsl_trees.specs.Tree.{view_tree};
ghost use Rattle.c_answers.specs.Answers.{Gives};

use crate::makers::two;
use crate::sorts::{alike, is_integer, is_null, is_pointer, is_unknown};
use crate::values::{beside, integer};
use acsl_trees::{Head, Operand, Sort, Tree};
use c_answers::refused;
use std::alloc::Global;
use typed_prog::Comparison;
use wp_base::{Line, NoMemory, Rule, Stop};

/// As what two values are compared.
#[derive(Clone, Copy)]
pub(crate) enum Comparing {
    Numbers,
    Pointers,
}

fn compare_by(as_numbers: bool, as_pointers: bool) -> Option<Comparing>
    ensures { result ≡ spec.compare_by as_numbers as_pointers }
{
    if as_numbers {
        return Some(Comparing::Numbers);
    }
    if as_pointers {
        return Some(Comparing::Pointers);
    }
    None
}

fn are_numbers(first: &Sort, second: &Sort) -> bool
    ensures { result ≡ spec.are_numbers first.now second.now }
{
    is_unknown(first) || is_unknown(second) || is_integer(first) && is_integer(second)
}

/// As what the order of two values is told.
#[tactic(auto, unfolding(crate::specs::Operators::ordered))]
pub(crate) fn ordered(
    alloc: Global,
    first: &Sort,
    second: &Sort,
) -> Result<Option<Comparing>, NoMemory>
    ensures { IfOk result (λ found. found ≡ spec.ordered first.now second.now) }
{
    let alike = alike(alloc, first, second)?;
    Ok(compare_by(are_numbers(first, second), alike))
}

/// As what it is told whether two values are equal.
#[tactic(auto, unfolding(crate::specs::Operators::equated))]
pub(crate) fn equated(
    alloc: Global,
    first: &Sort,
    second: &Sort,
) -> Result<Option<Comparing>, NoMemory>
    ensures { IfOk result (λ found. found ≡ spec.equated first.now second.now) }
{
    let alike = alike(alloc, first, second)?;
    let are_equatable = alike
        || is_pointer(first) && is_null(second)
        || is_null(first) && is_pointer(second);
    Ok(compare_by(are_numbers(first, second), are_equatable))
}

fn compared(
    alloc: Global,
    line: Line,
    how: Comparison,
    first: Tree,
    second: Tree,
    comparing: Option<Comparing>,
) -> Result<Operand, Stop>
    ensures { Gives view_operand result (spec.compared line how (view_tree first) (view_tree second) comparing) }
{
    match comparing {
        Some(Comparing::Numbers) => { Ok(integer(two(alloc, Head::Compare(how), first, second)?)) }
        Some(Comparing::Pointers) => {
            Ok(integer(two(alloc, Head::ComparePointers(how), first, second)?))
        }
        None => Err(refused(Rule::Typing, line)),
    }
}

/// `<`, `<=`, `>` and `>=`.
#[tactic(auto, unfolding(crate::specs::Operators::order))]
pub(crate) fn order(
    alloc: Global,
    line: Line,
    how: Comparison,
    left: Operand,
    right: Operand,
) -> Result<Operand, Stop>
    ensures { Gives view_operand result (spec.order line how (view_operand left) (view_operand right)) }
{
    let comparing = ordered(alloc, &left.sort, &right.sort)?;
    compared(alloc, line, how, left.tree, right.tree, comparing)
}

/// `==` and `!=`.
#[tactic(auto, unfolding(crate::specs::Operators::equality))]
pub(crate) fn equality(
    alloc: Global,
    line: Line,
    how: Comparison,
    left: Operand,
    right: Operand,
) -> Result<Operand, Stop>
    ensures { Gives view_operand result (spec.equality line how (view_operand left) (view_operand right)) }
{
    let Operand { tree: first, sort } = left;
    let Operand {
        tree: second,
        sort: other,
    } = right;
    let comparing = equated(alloc, &sort, &other)?;
    let first = beside(alloc, &other, &sort, first);
    let second = beside(alloc, &sort, &other, second);
    compared(alloc, line, how, first, second, comparing)
}
