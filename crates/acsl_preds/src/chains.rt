// Chains of comparisons (ACSL 2.2.2).
ghost use Rattle.std.specs.Prelude.{[], ◌∷◌, map};
ghost use Rattle.acsl_names.specs.Names.{view_around};
ghost use Rattle.acsl_preds.specs.Preds as spec;
ghost use Rattle.acsl_trees.specs.Operands.{view_operand};
ghost use Rattle.acsl_trees.specs.Tree.{view_tree};
ghost use Rattle.c_answers.specs.Answers.{Gives};
ghost use Rattle.c_syntax.specs.View.{view_term};

use acsl_names::{Around, Bound, Count, Reading};
use acsl_rules::chain;
use acsl_terms::{closed_tree, typed_term};
use acsl_trees::{Operand, Tree};
use c_syntax::{BinOp, Term};
use std::alloc::Global;
use wp_base::{Line, List, Stop};

// The other terms of a chain, behind the first.
#[tactic(auto, using(crate::proofs::Chaining::chain_laws))]
fn all_typed(
    alloc: Global,
    around: &Around<'_>,
    names: &Bound,
    reading: Reading,
    count: &mut Count,
    first: Operand,
    rest: &[Term],
) -> Result<List<Operand>, Stop>
    ensures { Gives (λ xs. (map view_operand xs, count.new)) result (spec.onto (view_operand first ∷ []) (spec.all_typed (view_around around.now) names.now reading count.old (map view_term rest.now))) }
{
    let mut operands = List::new(alloc);
    operands.push(first)?;
    for term in rest {
        let operand = typed_term(alloc, around, names, reading, count, term)?;
        operands.push(operand)?;
    }
    Ok(operands)
}

// A chain whose first term is this one.
#[tactic(auto, using(c_answers::proofs::After::after_laws))]
fn chain_from(
    alloc: Global,
    around: &Around<'_>,
    names: &Bound,
    reading: Reading,
    count: &mut Count,
    line: Line,
    first: &Term,
    rest: &[Term],
    ops: &[BinOp],
) -> Result<Tree, Stop>
    ensures { Gives (λ x. (view_tree x, count.new)) result (spec.chain_from (view_around around.now) names.now reading count.old line (view_term first.now) (map view_term rest.now) ops.now) }
{
    let first = typed_term(alloc, around, names, reading, count, first)?;
    let before = count.limit;
    count.add_node(line);
    let at = count.limit;
    let operands = all_typed(alloc, around, names, reading, count, first, rest)?;
    let made = chain(alloc, line, operands, ops);
    closed_tree(before, at, count, made)
}

/// A chain, which counts where its first comparison stands.
#[tactic(auto, unfolding(crate::specs::Preds::chain_typed))]
pub(crate) fn chain_typed(
    alloc: Global,
    around: &Around<'_>,
    names: &Bound,
    reading: Reading,
    count: &mut Count,
    line: Line,
    terms: &List<Term>,
    ops: &List<BinOp>,
) -> Result<Tree, Stop>
    ensures { Gives (λ x. (view_tree x, count.new)) result (spec.chain_typed (view_around around.now) names.now reading count.old line (map view_term terms.now) ops.now) }
{
    match terms.as_slice().split_first() {
        Some((first, rest)) => chain_from(
            alloc,
            around,
            names,
            reading,
            count,
            line,
            first,
            rest,
            ops.as_slice(),
        ),
        None => {
            let before = count.limit;
            count.add_node(line);
            let made = chain(alloc, line, List::new(alloc), ops.as_slice());
            closed_tree(before, count.limit, count, made)
        }
    }
}
