// The body of a definition (ACSL 2.6.1, 2.6.6).
ghost use Rattle.std.specs.Prelude.{◌≡◌, IfOk, map};
ghost use Rattle.acsl_definitions.specs.Definitions as spec;
ghost use Rattle.acsl_names.specs.Names.{view_around};
ghost use Rattle.acsl_trees.specs.Operands.{view_operand};
ghost use Rattle.acsl_trees.specs.Tree.{view_tree};
ghost use Rattle.c_answers.specs.Answers.{Gives};
ghost use Rattle.c_syntax.specs.Term as t;
ghost use Rattle.c_syntax.specs.View.{view_logic, view_logic_body, view_term, view_var};

use crate::headers::Header;
use acsl_names::{Around, Bound, Count, Limit, Reading, Weight, limited};
use acsl_preds::typed_pred;
use acsl_rules::{conditional, passed};
use acsl_terms::{closed, closed_tree, typed_term};
use acsl_trees::{Operand, TermType, Tree};
use c_syntax::{LogicBody, LogicDecl, Term, TermShape, VarDecl};
use std::alloc::Global;
use wp_base::{Line, List, NoMemory, Stop};

// A conditional in whose last branch the function may call itself.
#[tactic(auto, using(c_answers::proofs::After::after_laws))]
fn branches_typed(
    alloc: Global,
    around: &Around<'_>,
    params: &List<VarDecl>,
    names: &Bound,
    count: &mut Count,
    line: Line,
    test: &Term,
    first: &Term,
    last: &Term,
) -> Result<Operand, Stop>
    ensures { Gives (λ x. (view_operand x, count.new)) result (spec.function_typed (view_around around.now) (map view_var params.now) names.now count.old (t.cond line (view_term test.now) (view_term first.now) (view_term last.now))) }
{
    let reading = Reading::current();
    let test = typed_term(alloc, around, names, reading, count, test)?;
    let before = count.limit;
    count.add_node(line);
    let at = count.limit;
    let first = typed_term(alloc, around, names, reading, count, first)?;
    let down = around.going_down(params);
    let last = typed_term(alloc, &down, names, reading, count, last)?;
    let made = conditional(alloc, line, test, first, last);
    closed(before, at, count, made)
}

#[tactic(auto, using(c_syntax::proofs::Equations::term_laws))]
fn function_typed(
    alloc: Global,
    around: &Around<'_>,
    params: &List<VarDecl>,
    names: &Bound,
    count: &mut Count,
    term: &Term,
) -> Result<Operand, Stop>
    ensures { Gives (λ x. (view_operand x, count.new)) result (spec.function_typed (view_around around.now) (map view_var params.now) names.now count.old (view_term term.now)) }
{
    let reading = Reading::current();
    match term.node.look() {
        TermShape::Cond(test, first, last) => branches_typed(
            alloc,
            around,
            params,
            names,
            count,
            term.line,
            test.get(),
            first.get(),
            last.get(),
        ),
        TermShape::Leaf(_) => typed_term(alloc, around, names, reading, count, term),
        TermShape::One(_, _) => typed_term(alloc, around, names, reading, count, term),
        TermShape::Two(_, _, _) => typed_term(alloc, around, names, reading, count, term),
        TermShape::Call(_, _) => typed_term(alloc, around, names, reading, count, term),
    }
}

#[tactic(auto, using(c_answers::proofs::After::after_laws, c_syntax::proofs::Lines::term_line_is))]
fn value_typed(
    alloc: Global,
    around: &Around<'_>,
    params: &List<VarDecl>,
    names: &Bound,
    count: &mut Count,
    ty: &TermType,
    term: &Term,
) -> Result<Tree, Stop>
    ensures { Gives (λ x. (view_tree x, count.new)) result (spec.value_typed (view_around around.now) (map view_var params.now) names.now count.old ty.now (view_term term.now)) }
{
    let before = count.limit;
    let value = function_typed(alloc, around, params, names, count, term)?;
    let made = passed(alloc, term.line, ty, value);
    closed_tree(before, before, count, made)
}

fn term_typed(
    alloc: Global,
    around: &Around<'_>,
    params: &List<VarDecl>,
    names: &Bound,
    count: &mut Count,
    ty: &Option<TermType>,
    term: &Term,
) -> Result<Tree, Stop>
    ensures { Gives (λ x. (view_tree x, count.new)) result (spec.value_typed (view_around around.now) (map view_var params.now) names.now count.old (spec.or_unknown ty.now) (view_term term.now)) }
{
    match ty {
        Some(ty) => value_typed(alloc, around, params, names, count, ty, term),
        None => value_typed(
            alloc,
            around,
            params,
            names,
            count,
            &TermType::Unknown,
            term,
        ),
    }
}

fn body_by(
    alloc: Global,
    around: &Around<'_>,
    params: &List<VarDecl>,
    names: &mut Bound,
    count: &mut Count,
    ty: &Option<TermType>,
    body: &LogicBody,
) -> Result<Tree, Stop>
    ensures { Gives (λ x. (view_tree x, count.new)) result (spec.body_by (view_around around.now) (map view_var params.now) names.old count.old ty.now (view_logic_body body.now)) }
{
    match body {
        LogicBody::Term(term) => term_typed(alloc, around, params, names, count, ty, term),
        LogicBody::Pred(pred) => {
            typed_pred(alloc, around, names, Reading::current(), count, pred)
        }
    }
}

fn no_nodes(alloc: Global, params: usize) -> Result<Count, NoMemory>
    ensures { IfOk result (λ count. count ≡ spec.no_nodes params) }
{
    Ok(Count {
        limit: Limit::Counting,
        weight: Weight::none(alloc, params)?,
    })
}

/// The body of a definition, and how many nodes it has, or the first fault in it. The header serves for this once.
#[tactic(auto, using(c_answers::proofs::After::after_laws))]
pub(crate) fn body_typed(
    alloc: Global,
    around: &Around<'_>,
    logic: &LogicDecl,
    header: &mut Header,
) -> Result<(Tree, Weight), Stop>
    ensures { Gives (λ x. (view_tree x.0, x.1)) result (spec.body_typed (view_around around.now) (view_logic logic.now) header.old) }
{
    let mut count = no_nodes(alloc, header.params.types.len())?;
    let tree = body_by(
        alloc,
        around,
        &logic.params,
        &mut header.params,
        &mut count,
        &header.result,
        &logic.body,
    )?;
    limited(count.limit)?;
    Ok((tree, count.weight))
}
