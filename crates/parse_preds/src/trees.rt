// Predicates made of others.
ghost use Rattle.std.specs.Prelude.{◌≡◌, IfOk, map};
ghost use Rattle.c_syntax.specs.Pred as r;
ghost use Rattle.c_syntax.specs.View.{view_pred, view_term, view_var};
ghost use Rattle.c_grammar.specs.Preds.{connected as connected_of};
ghost use Rattle.parse_preds.specs.Views.{view_connective};

use crate::next::Connective;
use c_syntax::{Pred, PredNode, Term, VarDecl};
use std::alloc::Global;
use wp_base::{Boxed, Line, List, NoMemory, Str, box_both, box_three};

/// `\true`.
#[tactic(auto, using(c_syntax::proofs::Equations::pred_laws))]
pub fn always(line: Line) -> Pred
    ensures { view_pred result ≡ r.always line }
{
    Pred {
        node: PredNode::True,
        line,
    }
}

/// `\false`.
#[tactic(auto, using(c_syntax::proofs::Equations::pred_laws))]
pub fn never(line: Line) -> Pred
    ensures { view_pred result ≡ r.never line }
{
    Pred {
        node: PredNode::False,
        line,
    }
}

/// `!`.
#[tactic(auto, using(c_syntax::proofs::Equations::pred_laws))]
pub fn negated(alloc: Global, line: Line, inside: Pred) -> Result<Pred, NoMemory>
    ensures { IfOk result (λ made. view_pred made ≡ r.not_of line (view_pred inside)) }
{
    let node = PredNode::Not(Boxed::new(alloc, inside)?);
    Ok(Pred { node, line })
}

/// `\old`.
#[tactic(auto, using(c_syntax::proofs::Equations::pred_laws))]
pub fn not_sooner(alloc: Global, line: Line, inside: Pred) -> Result<Pred, NoMemory>
    ensures { IfOk result (λ made. view_pred made ≡ r.old line (view_pred inside)) }
{
    let node = PredNode::Old(Boxed::new(alloc, inside)?);
    Ok(Pred { node, line })
}

/// `==>`.
#[tactic(auto, using(c_syntax::proofs::Equations::pred_laws))]
pub fn implied_by(alloc: Global, line: Line, left: Pred, right: Pred) -> Result<Pred, NoMemory>
    ensures { IfOk result (λ made. view_pred made ≡ r.implies line (view_pred left) (view_pred right)) }
{
    let (left, right) = box_both(alloc, left, right)?;
    let node = PredNode::Implies(left, right);
    Ok(Pred { node, line })
}

/// `<==>`.
#[tactic(auto, using(c_syntax::proofs::Equations::pred_laws))]
pub fn same_as(alloc: Global, line: Line, left: Pred, right: Pred) -> Result<Pred, NoMemory>
    ensures { IfOk result (λ made. view_pred made ≡ r.iff line (view_pred left) (view_pred right)) }
{
    let (left, right) = box_both(alloc, left, right)?;
    let node = PredNode::Iff(left, right);
    Ok(Pred { node, line })
}

/// `? :`.
#[tactic(auto, using(c_syntax::proofs::Equations::pred_laws))]
pub fn either_arm(
    alloc: Global,
    line: Line,
    test: Pred,
    yes: Pred,
    no: Pred,
) -> Result<Pred, NoMemory>
    ensures { IfOk result (λ made. view_pred made ≡ r.cond line (view_pred test) (view_pred yes) (view_pred no)) }
{
    let (test, yes, no) = box_three(alloc, test, yes, no)?;
    let node = PredNode::Cond(test, yes, no);
    Ok(Pred { node, line })
}

/// `\forall`.
#[tactic(auto, using(c_syntax::proofs::Equations::pred_laws))]
pub fn each_of(
    alloc: Global,
    line: Line,
    binders: List<VarDecl>,
    inside: Pred,
) -> Result<Pred, NoMemory>
    ensures { IfOk result (λ made. view_pred made ≡ r.for_all line (map view_var binders) (view_pred inside)) }
{
    let node = PredNode::Forall(binders, Boxed::new(alloc, inside)?);
    Ok(Pred { node, line })
}

/// `\exists`.
#[tactic(auto, using(c_syntax::proofs::Equations::pred_laws))]
pub fn some_of(
    alloc: Global,
    line: Line,
    binders: List<VarDecl>,
    inside: Pred,
) -> Result<Pred, NoMemory>
    ensures { IfOk result (λ made. view_pred made ≡ r.for_some line (map view_var binders) (view_pred inside)) }
{
    let node = PredNode::Exists(binders, Boxed::new(alloc, inside)?);
    Ok(Pred { node, line })
}

/// `\let`.
#[tactic(auto, using(c_syntax::proofs::Equations::pred_laws))]
pub fn such_that(
    alloc: Global,
    line: Line,
    name: Str,
    value: Term,
    inside: Pred,
) -> Result<Pred, NoMemory>
    ensures { IfOk result (λ made. view_pred made ≡ r.let_in line name (view_term value) (view_pred inside)) }
{
    let (value, inside) = box_both(alloc, value, inside)?;
    let node = PredNode::Let(name, value, inside);
    Ok(Pred { node, line })
}

/// A connective between two predicates.
#[tactic(auto, using(c_syntax::proofs::Equations::pred_laws))]
pub fn connected(
    alloc: Global,
    connective: Connective,
    line: Line,
    left: Pred,
    right: Pred,
) -> Result<Pred, NoMemory>
    ensures { IfOk result (λ made. view_pred made ≡ connected_of (view_connective connective) line (view_pred left) (view_pred right)) }
{
    let (left, right) = box_both(alloc, left, right)?;
    match connective {
        Connective::Both => Ok(Pred {
            node: PredNode::And(left, right),
            line,
        }),
        Connective::OneOf => Ok(Pred {
            node: PredNode::Xor(left, right),
            line,
        }),
        Connective::Either => Ok(Pred {
            node: PredNode::Or(left, right),
            line,
        }),
    }
}
