// Sums, differences and the other arithmetic (ACSL 2.2.3).
ghost use Rattle.std.specs.Prelude.{◌≡◌, IfOk};
ghost use Rattle.acsl_rules.specs.Operators as spec;
ghost use Rattle.acsl_trees.specs.Operands.{view_operand};
ghost use Rattle.acsl_trees.specs.Tree.{two as two_kids, view_tree};
ghost use Rattle.acsl_trees.specs.Operands.{operand};
ghost use Rattle.c_answers.specs.Answers.{Gives};

use crate::makers::two;
use crate::sorts::{alike, is_integer, is_pointer, is_unknown, may_be_integer, stride_of};
use crate::values::integer;
use acsl_trees::{Head, Operand, Sort, Tree};
use c_answers::refused;
use std::alloc::Global;
use typed_prog::Arithmetic;
use wp_base::{Line, NoMemory, Rule, Stop};

fn both_may_be_integers(left: &Operand, right: &Operand) -> bool
    ensures { result ≡ spec.both_may_be_integers (view_operand left.now) (view_operand right.now) }
{
    may_be_integer(&left.sort) && may_be_integer(&right.sort)
}

fn joined(
    alloc: Global,
    head: Head,
    first: Tree,
    second: Tree,
    sort: Sort,
) -> Result<Operand, NoMemory>
    ensures { IfOk result (λ x. view_operand x ≡ operand (two_kids head (view_tree first) (view_tree second)) sort) }
{
    let tree = two(alloc, head, first, second)?;
    Ok(Operand { tree, sort })
}

/// An operator of two integers that gives one.
pub(crate) fn arithmetic(
    alloc: Global,
    line: Line,
    op: Arithmetic,
    left: Operand,
    right: Operand,
) -> Result<Operand, Stop>
    ensures { Gives view_operand result (spec.arithmetic line op (view_operand left) (view_operand right)) }
{
    if !both_may_be_integers(&left, &right) {
        return Err(refused(Rule::Typing, line));
    }
    Ok(integer(two(alloc, Head::Arithmetic(op), left.tree, right.tree)?))
}

fn number_sort(both: bool) -> Sort
    ensures { result ≡ spec.number_sort both }
{
    if both {
        Sort::Integer(None)
    } else {
        Sort::Unknown
    }
}

// A sum or a difference without a pointer.
fn numbers(
    alloc: Global,
    line: Line,
    op: Arithmetic,
    left: Operand,
    right: Operand,
) -> Result<Operand, Stop>
    ensures { Gives view_operand result (spec.numbers line op (view_operand left) (view_operand right)) }
{
    if !both_may_be_integers(&left, &right) {
        return Err(refused(Rule::Typing, line));
    }
    let sort = number_sort(is_integer(&left.sort) && is_integer(&right.sort));
    Ok(joined(alloc, Head::Arithmetic(op), left.tree, right.tree, sort)?)
}

fn moves(minus: bool) -> Arithmetic
    ensures { result ≡ spec.moves minus }
{
    if minus {
        Arithmetic::Sub
    } else {
        Arithmetic::Add
    }
}

// A pointer moved by an integer, over its elements.
fn offset(
    alloc: Global,
    sizes: &[u32],
    line: Line,
    minus: bool,
    pointer: Operand,
    index: Operand,
) -> Result<Operand, Stop>
    ensures { Gives view_operand result (spec.offset sizes.now line minus (view_operand pointer) (view_operand index)) }
{
    let Some(size) = stride_of(sizes, &pointer.sort) else {
        return Err(refused(Rule::Typing, line));
    };
    match index.sort {
        Sort::Integer(_) => {
            let head = Head::Moved { minus, size };
            Ok(joined(alloc, head, pointer.tree, index.tree, pointer.sort)?)
        }
        Sort::Unknown => {
            let head = Head::Arithmetic(moves(minus));
            Ok(joined(alloc, head, pointer.tree, index.tree, Sort::Unknown)?)
        }
        Sort::Object(_, _) => Err(refused(Rule::Typing, line)),
        Sort::Pointer(_, _) => Err(refused(Rule::Typing, line)),
    }
}

/// `+`
#[tactic(auto, unfolding(crate::specs::Operators::sum))]
pub(crate) fn sum(
    alloc: Global,
    sizes: &[u32],
    line: Line,
    left: Operand,
    right: Operand,
) -> Result<Operand, Stop>
    ensures { Gives view_operand result (spec.sum sizes.now line (view_operand left) (view_operand right)) }
{
    if is_pointer(&left.sort) {
        return offset(alloc, sizes, line, false, left, right);
    }
    if is_pointer(&right.sort) {
        return offset(alloc, sizes, line, false, right, left);
    }
    numbers(alloc, line, Arithmetic::Add, left, right)
}

// The number of elements between two pointers.
fn apart(
    alloc: Global,
    sizes: &[u32],
    line: Line,
    left: Operand,
    right: Operand,
) -> Result<Operand, Stop>
    ensures { Gives view_operand result (spec.apart sizes.now line (view_operand left) (view_operand right)) }
{
    if !alike(alloc, &left.sort, &right.sort)? {
        return Err(refused(Rule::Typing, line));
    }
    match stride_of(sizes, &left.sort) {
        Some(size) => { Ok(integer(two(alloc, Head::Difference { size }, left.tree, right.tree)?)) }
        None => Err(refused(Rule::Typing, line)),
    }
}

// A pointer taken from a value without a type.
fn taken(
    alloc: Global,
    sizes: &[u32],
    line: Line,
    left: Operand,
    right: Operand,
) -> Result<Operand, Stop>
    ensures { Gives view_operand result (spec.taken sizes.now line (view_operand left) (view_operand right)) }
{
    if is_unknown(&left.sort) && stride_of(sizes, &right.sort).is_some() {
        let head = Head::Arithmetic(Arithmetic::Sub);
        return Ok(joined(alloc, head, left.tree, right.tree, Sort::Unknown)?);
    }
    Err(refused(Rule::Typing, line))
}

/// Binary `-`.
#[tactic(auto, unfolding(crate::specs::Operators::difference))]
pub(crate) fn difference(
    alloc: Global,
    sizes: &[u32],
    line: Line,
    left: Operand,
    right: Operand,
) -> Result<Operand, Stop>
    ensures { Gives view_operand result (spec.difference sizes.now line (view_operand left) (view_operand right)) }
{
    match (is_pointer(&left.sort), is_pointer(&right.sort)) {
        (true, true) => apart(alloc, sizes, line, left, right),
        (true, false) => offset(alloc, sizes, line, true, left, right),
        (false, true) => taken(alloc, sizes, line, left, right),
        (false, false) => numbers(alloc, line, Arithmetic::Sub, left, right),
    }
}
