// What stands in a bracket behind the kids, and what a head makes of them.
ghost use Rattle.std.specs.Prelude.{◌≡◌, None, map};
ghost use Rattle.qed_terms.specs.View.{term_tree, formula_tree};
ghost use Rattle.goal_text.specs.Reader as spec;
ghost use Rattle.goal_text.specs.Views.{Gives, GivesOne, both_trees, bound_trees, kids_view, same};

use crate::answer::GoalText;
use crate::fronts::{FormHead, TermHead};
use crate::kids::{Kids, only_one, only_two};
use crate::layout::{expect, layout_part};
use qed_terms::{FormOp, Formula, Term, TermOp};
use std::alloc::Global;
use wp_base::{Boxed, Layout, List, box_both, box_three};

// A layout, where the head has one, and the bracket that closes.
fn tail(alloc: Global, is_laid: bool, bytes: &[u8]) -> Result<(Option<Layout>, &[u8]), GoalText>
    ensures { Gives same result (spec.tail is_laid bytes.now) }
{
    if is_laid {
        let (layout, rest) = layout_part(alloc, bytes)?;
        let rest = expect(b')', rest)?;
        Ok((Some(layout), rest))
    } else {
        let rest = expect(b')', bytes)?;
        Ok((None, rest))
    }
}

fn term_is_laid(head: &TermHead) -> bool
    ensures { result ≡ spec.term_is_laid head.now }
{
    match head {
        TermHead::Alloc => true,
        TermHead::Op(_) | TermHead::Ite | TermHead::App(_) => false,
    }
}

fn form_is_laid(head: &FormHead) -> bool
    ensures { result ≡ spec.form_is_laid head.now }
{
    match head {
        FormHead::Has => true,
        FormHead::Rel(_)
        | FormHead::Not
        | FormHead::And
        | FormHead::Or
        | FormHead::Imp
        | FormHead::Iff
        | FormHead::Forall(_)
        | FormHead::Exists(_)
        | FormHead::Frame => false,
    }
}

#[tactic(auto, using(qed_terms::proofs::Equations::tree_laws, crate::proofs::Steps::list_laws))]
fn choice(alloc: Global, kids: Kids) -> Result<Term, GoalText>
    ensures { GivesOne term_tree result (spec.term_made TermHead.Ite None (kids_view kids)) }
{
    let Some(condition) = only_one(kids.formulas) else {
        return Err(GoalText::NotAGoal);
    };
    let Some((left, right)) = only_two(kids.terms) else {
        return Err(GoalText::NotAGoal);
    };
    let (condition, left, right) = box_three(alloc, condition, left, right)?;
    Ok(Term::Ite(condition, left, right))
}

#[tactic(auto, using(qed_terms::proofs::Equations::tree_laws))]
fn term_made(
    alloc: Global,
    head: TermHead,
    layout: Option<Layout>,
    kids: Kids,
) -> Result<Term, GoalText>
    ensures { GivesOne term_tree result (spec.term_made head layout (kids_view kids)) }
{
    match head {
        TermHead::Op(op) => Ok(Term::Op(op, kids.terms)),
        TermHead::Ite => choice(alloc, kids),
        TermHead::App(name) => Ok(Term::App(name, kids.terms)),
        TermHead::Alloc => match layout {
            Some(layout) => Ok(Term::Op(TermOp::Alloc(layout), kids.terms)),
            None => Err(GoalText::NotAGoal),
        },
    }
}

/// The term of a head and its kids, with what stands behind them.
#[tactic(auto, unfolding(crate::specs::Reader::term_end))]
pub fn term_end(
    alloc: Global,
    head: TermHead,
    kids: Kids,
    bytes: &[u8],
) -> Result<(Term, &[u8]), GoalText>
    ensures { Gives term_tree result (spec.term_end head (kids_view kids) bytes.now) }
{
    let (layout, rest) = tail(alloc, term_is_laid(&head), bytes)?;
    let term = term_made(alloc, head, layout, kids)?;
    Ok((term, rest))
}

// The one formula, in a box.
#[tactic(auto, using(crate::proofs::Steps::list_laws))]
fn one_boxed(alloc: Global, formulas: List<Formula>) -> Result<Boxed<Formula>, GoalText>
    ensures { GivesOne formula_tree result (spec.only_one (map formula_tree formulas)) }
{
    match only_one(formulas) {
        Some(formula) => {
            let boxed = Boxed::new(alloc, formula)?;
            Ok(boxed)
        }
        None => Err(GoalText::NotAGoal),
    }
}

// The two formulas, in boxes.
#[tactic(auto, using(crate::proofs::Steps::list_laws))]
fn two_boxed(
    alloc: Global,
    formulas: List<Formula>,
) -> Result<(Boxed<Formula>, Boxed<Formula>), GoalText>
    ensures { GivesOne both_trees result (spec.only_two (map formula_tree formulas)) }
{
    match only_two(formulas) {
        Some((left, right)) => {
            let boxes = box_both(alloc, left, right)?;
            Ok(boxes)
        }
        None => Err(GoalText::NotAGoal),
    }
}

// The bounds of a quantifier and its body, in boxes.
#[tactic(auto, using(crate::proofs::Steps::list_laws))]
fn bound(alloc: Global, kids: Kids) -> Result<(Boxed<Term>, Boxed<Term>, Boxed<Formula>), GoalText>
    ensures { GivesOne bound_trees result (spec.bound (kids_view kids)) }
{
    let Some((low, high)) = only_two(kids.terms) else {
        return Err(GoalText::NotAGoal);
    };
    let Some(body) = only_one(kids.formulas) else {
        return Err(GoalText::NotAGoal);
    };
    let boxes = box_three(alloc, low, high, body)?;
    Ok(boxes)
}

#[tactic(auto, using(qed_terms::proofs::Equations::tree_laws))]
fn form_made(
    alloc: Global,
    head: FormHead,
    layout: Option<Layout>,
    kids: Kids,
) -> Result<Formula, GoalText>
    ensures { GivesOne formula_tree result (spec.form_made head layout (kids_view kids)) }
{
    match head {
        FormHead::Rel(op) => Ok(Formula::Rel(op, kids.terms)),
        FormHead::Not => Ok(Formula::Not(one_boxed(alloc, kids.formulas)?)),
        FormHead::And => Ok(Formula::And(kids.formulas)),
        FormHead::Or => Ok(Formula::Or(kids.formulas)),
        FormHead::Imp => {
            let (left, right) = two_boxed(alloc, kids.formulas)?;
            Ok(Formula::Imp(left, right))
        }
        FormHead::Iff => {
            let (left, right) = two_boxed(alloc, kids.formulas)?;
            Ok(Formula::Iff(left, right))
        }
        FormHead::Forall(name) => {
            let (low, high, body) = bound(alloc, kids)?;
            Ok(Formula::Forall(name, low, high, body))
        }
        FormHead::Exists(name) => {
            let (low, high, body) = bound(alloc, kids)?;
            Ok(Formula::Exists(name, low, high, body))
        }
        FormHead::Has => match layout {
            Some(layout) => Ok(Formula::Rel(FormOp::Has(layout), kids.terms)),
            None => Err(GoalText::NotAGoal),
        },
        FormHead::Frame => Ok(Formula::Rel(FormOp::Frame(kids.shapes), kids.terms)),
    }
}

/// The formula of a head and its kids, with what stands behind them.
#[tactic(auto, unfolding(crate::specs::Reader::form_end))]
pub fn form_end(
    alloc: Global,
    head: FormHead,
    kids: Kids,
    bytes: &[u8],
) -> Result<(Formula, &[u8]), GoalText>
    ensures { Gives formula_tree result (spec.form_end head (kids_view kids) bytes.now) }
{
    let (layout, rest) = tail(alloc, form_is_laid(&head), bytes)?;
    let formula = form_made(alloc, head, layout, kids)?;
    Ok((formula, rest))
}
