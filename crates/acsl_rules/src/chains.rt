// Chains of comparisons (ACSL 2.2.1).
ghost use Rattle.std.specs.Prelude.{◌≡◌, [], ◌∷◌, false, map, reverse, IfOk, MatchResult};
ghost use Rattle.acsl_rules.specs.Chains as spec;
ghost use Rattle.acsl_trees.specs.Operands.{operand, view_operand};
ghost use Rattle.acsl_trees.specs.Tree.{view_tree, view_trees};
ghost use Rattle.c_answers.specs.Answers.{Gives};

use crate::comparisons::{Comparing, equated, ordered};
use crate::makers::{leaf, one};
use crate::sorts::{is_null, is_pointer};
use crate::values::valued;
use acsl_trees::{Head, Operand, Sort, Tree};
use c_answers::refused;
use c_syntax::BinOp;
use std::alloc::Global;
use typed_prog::{Comparison, CoreType};
use wp_base::{Line, List, NoMemory, Rule, Stop};

#[tactic(auto, using(crate::proofs::Turns::valued_laws))]
fn all_valued(alloc: Global, line: Line, terms: List<Operand>) -> Result<List<Operand>, Stop>
    ensures { Gives (map view_operand) result (spec.all_valued line (map view_operand terms)) }
{
    let mut values = List::new(alloc);
    for term in terms.into_vec() {
        values.push(valued(alloc, line, term)?)?;
    }
    Ok(values)
}

fn first_op(ops: &[BinOp]) -> Option<BinOp>
    ensures { result ≡ spec.first_op ops.now }
{
    match ops.split_first() {
        Some((op, _)) => Some(*op),
        None => None,
    }
}

fn other_ops(ops: &[BinOp]) -> &[BinOp]
    ensures { result.now ≡ spec.other_ops ops.now }
{
    match ops.split_first() {
        Some((_, others)) => others,
        None => ops,
    }
}

fn is_equality(op: BinOp) -> bool
    ensures { result ≡ spec.is_equality op }
{
    matches!(op, BinOp::Equal | BinOp::NotEqual)
}

fn is_first_equality(op: Option<BinOp>) -> bool
    ensures { result ≡ spec.is_first_equality op }
{
    match op {
        Some(op) => is_equality(op),
        None => false,
    }
}

fn null(alloc: Global) -> Result<Operand, NoMemory>
    ensures { IfOk result (λ x. view_operand x ≡ spec.null) }
{
    let ty = CoreType::void(alloc).pointer(alloc, false)?;
    Ok(Operand {
        tree: leaf(alloc, Head::Null),
        sort: Sort::Pointer(ty, true),
    })
}

fn null_beside(alloc: Global, pointer_beside: bool, value: Operand) -> Result<Operand, NoMemory>
    ensures { IfOk result (λ x. view_operand x ≡ spec.null_beside pointer_beside (view_operand value)) }
{
    if pointer_beside && is_null(&value.sort) {
        return null(alloc);
    }
    Ok(value)
}

fn is_beside(sort: &Sort, ops: &[BinOp]) -> bool
    ensures { result ≡ spec.is_beside sort.now ops.now }
{
    is_pointer(sort) && is_first_equality(first_op(ops))
}

// A null pointer constant behind a pointer is null.
#[tactic(auto, using(crate::proofs::Turns::null_turn))]
fn nulls_behind(
    alloc: Global,
    ops: &[BinOp],
    values: List<Operand>,
) -> Result<List<Operand>, NoMemory>
    ensures { IfOk result (λ vs. map view_operand vs ≡ spec.nulls_behind false ops.now (map view_operand values)) }
{
    let mut left = ops;
    let mut pointer_before = false;
    let mut found = List::new(alloc);
    for value in values.into_vec() {
        let value = null_beside(alloc, pointer_before, value)?;
        pointer_before = is_beside(&value.sort, left);
        left = other_ops(left);
        found.push(value)?;
    }
    Ok(found)
}

fn turned<T>(items: List<T>) -> List<T>
    ensures { result ≡ reverse items }
{
    let mut items = items.into_vec();
    items.reverse();
    List::from_vec(items)
}

fn turned_ops(alloc: Global, ops: &[BinOp]) -> Result<List<BinOp>, NoMemory>
    ensures { IfOk result (λ os. os ≡ reverse ops.now) }
{
    let ops = Vec::from_slice(alloc, ops)?;
    Ok(turned(List::from_vec(ops)))
}

// A null pointer constant beside a pointer is null.
#[tactic(auto, using(crate::proofs::Turns::map_reverse), unfolding(crate::specs::Chains::with_nulls))]
fn with_nulls(
    alloc: Global,
    ops: &[BinOp],
    values: List<Operand>,
) -> Result<List<Operand>, NoMemory>
    ensures { IfOk result (λ vs. map view_operand vs ≡ spec.with_nulls ops.now (map view_operand values)) }
{
    let values = nulls_behind(alloc, ops, values)?;
    let turned_ops = turned_ops(alloc, ops)?;
    let values = nulls_behind(alloc, turned_ops.as_slice(), turned(values))?;
    Ok(turned(values))
}

fn comparison_of(op: BinOp) -> Option<Comparison>
    ensures { result ≡ spec.comparison_of op }
{
    match op {
        BinOp::Less => Some(Comparison::Less),
        BinOp::AtMost => Some(Comparison::AtMost),
        BinOp::Greater => Some(Comparison::Greater),
        BinOp::AtLeast => Some(Comparison::AtLeast),
        BinOp::Equal => Some(Comparison::Equal),
        BinOp::NotEqual => Some(Comparison::NotEqual),
        _ => None,
    }
}

fn both_or_neither(first: bool, second: bool) -> bool
    ensures { result ≡ spec.both_or_neither first second }
{
    first == second
}

fn related(
    alloc: Global,
    op: BinOp,
    first: &Sort,
    second: &Sort,
) -> Result<Option<Comparing>, NoMemory>
    ensures { IfOk result (λ c. c ≡ spec.related op first.now second.now) }
{
    if is_equality(op) && both_or_neither(is_pointer(first), is_pointer(second)) {
        equated(alloc, first, second)
    } else {
        ordered(alloc, first, second)
    }
}

fn link_by(
    alloc: Global,
    line: Line,
    tree: Tree,
    how: Option<Comparison>,
    comparing: Option<Comparing>,
) -> Result<Tree, Stop>
    ensures { Gives view_tree result (spec.link_by line (view_tree tree) how comparing) }
{
    let Some(how) = how else {
        return Err(refused(Rule::Typing, line));
    };
    match comparing {
        Some(Comparing::Numbers) => Ok(one(alloc, Head::Link(how), tree)?),
        Some(Comparing::Pointers) => Ok(one(alloc, Head::LinkPointers(how), tree)?),
        None => Err(refused(Rule::Typing, line)),
    }
}

// A term, behind one of this sort and the operator.
fn link(
    alloc: Global,
    line: Line,
    op: Option<BinOp>,
    before: &Sort,
    tree: Tree,
    sort: &Sort,
) -> Result<Tree, Stop>
    ensures { Gives view_tree result (spec.link line op before.now (operand (view_tree tree) sort.now)) }
{
    let Some(op) = op else {
        return Err(refused(Rule::Typing, line));
    };
    let comparing = related(alloc, op, before, sort)?;
    link_by(alloc, line, tree, comparison_of(op), comparing)
}

#[tactic(auto, using(crate::proofs::Turns::link_turn))]
fn links(
    alloc: Global,
    line: Line,
    before: Sort,
    ops: &[BinOp],
    values: List<Operand>,
    kids: List<Tree>,
) -> Result<List<Tree>, Stop>
    ensures { Gives view_trees result (spec.onto (view_trees kids) (spec.links line before ops.now (map view_operand values))) }
{
    let mut before = before;
    let mut left = ops;
    let mut kids = kids;
    for value in values.into_vec() {
        let Operand { tree, sort } = value;
        let kid = link(alloc, line, first_op(left), &before, tree, &sort)?;
        before = sort;
        left = other_ops(left);
        kids.push(kid)?;
    }
    Ok(kids)
}

fn first_and_rest<T>(items: List<T>) -> Result<(T, List<T>), List<T>>
    ensures { MatchResult result (λ two. two.0 ∷ two.1 ≡ items) (λ none. items ≡ []) }
{
    let mut items = items.into_vec();
    if items.is_empty() {
        return Err(List::from_vec(items));
    }
    let first = items.remove(0);
    Ok((first, List::from_vec(items)))
}

#[tactic(auto, using(c_answers::proofs::After::after_laws, acsl_trees::proofs::Equations::tree_laws))]
fn chain_behind(
    alloc: Global,
    line: Line,
    ops: &[BinOp],
    first: Operand,
    others: List<Operand>,
) -> Result<Tree, Stop>
    ensures { Gives view_tree result (spec.chained line ops.now (view_operand first ∷ map view_operand others)) }
{
    let Operand { tree, sort } = first;
    let mut kids = List::new(alloc);
    kids.push(tree)?;
    let kids = links(alloc, line, sort, ops, others, kids)?;
    Ok(Tree {
        head: Head::Chain,
        kids,
    })
}

fn chained(alloc: Global, line: Line, ops: &[BinOp], values: List<Operand>) -> Result<Tree, Stop>
    ensures { Gives view_tree result (spec.chained line ops.now (map view_operand values)) }
{
    match first_and_rest(values) {
        Ok((first, others)) => chain_behind(alloc, line, ops, first, others),
        Err(_) => Ok(leaf(alloc, Head::Chain)),
    }
}

/// Terms that are compared one after another, each with the one before by the operator between them: there is one operator fewer than there are
/// terms. A null pointer constant beside a pointer is null for both its neighbours.
#[tactic(auto, using(c_answers::proofs::After::after_laws), unfolding(crate::specs::Chains::chain))]
pub fn chain(alloc: Global, line: Line, terms: List<Operand>, ops: &[BinOp]) -> Result<Tree, Stop>
    ensures { Gives view_tree result (spec.chain line (map view_operand terms) ops.now) }
{
    let values = all_valued(alloc, line, terms)?;
    let values = with_nulls(alloc, ops, values)?;
    chained(alloc, line, ops, values)
}
