// Predicates (ACSL 2.2).
ghost use Rattle.std.specs.Prelude.{◌≡◌, OnOk, map};
ghost use Rattle.acsl_names.specs.Names.{view_around};
ghost use Rattle.acsl_preds.specs.Preds as spec;
ghost use Rattle.acsl_trees.specs.Tree.{view_tree};
ghost use Rattle.c_answers.specs.Answers.{Gives};
ghost use Rattle.c_syntax.specs.Pred as p;
ghost use Rattle.c_syntax.specs.View.{view_pred, view_term, view_var};

use crate::binders::{Over, bind, binders, enter, leave};
use crate::chains::chain_typed;
use crate::lets::{labelled, let_tree, let_value, number};
use crate::ranges::quantified;
use acsl_guards::guards;
use acsl_names::{Around, Bound, Count, Limit, Reading, ended, old_at};
use acsl_places::{typed_separated, typed_valid};
use acsl_rules::{one, three, two};
use acsl_terms::{called_at, closed_tree, predicate_call, typed_term};
use acsl_trees::{BinderPlace, Head, Tree};
use c_syntax::{Pred, PredLeaf, PredOne, PredShape, PredTwo, Term, VarDecl};
use std::alloc::Global;
use wp_base::{Line, List, Stop, Str};

// `\true` or `\false`.
fn truth(alloc: Global, count: &mut Count, line: Line, is_true: bool) -> Result<Tree, Stop>
    ensures { Gives (λ x. (view_tree x, count.new)) result (spec.truth_typed count.old line is_true) }
{
    let before = count.limit;
    count.add_node(line);
    let made = Ok(number(alloc, is_true));
    closed_tree(before, count.limit, count, made)
}

// The binders of a quantifier, each with its guard; their names are in scope behind.
#[tactic(auto, using(crate::proofs::Quantifying::binder_laws))]
fn binders_typed(
    alloc: Global,
    around: &Around<'_>,
    names: &mut Bound,
    at: Limit,
    for_all: bool,
    decls: &List<VarDecl>,
    body: &Pred,
) -> Result<List<Over>, Stop>
    ensures { Gives (λ xs. (xs, names.new)) result (spec.binders_typed (view_around around.now) names.old at for_all (map view_var decls.now) (view_pred body.now)) }
{
    let guards = guards(alloc, for_all, decls, body)?;
    enter(alloc, names)?;
    let found = binders(alloc, around, names, decls.as_slice(), guards.as_slice());
    ended(at, at, at, found)
}

/// The typed form of a predicate, or the first fault in it, and the count behind it.
#[cycle(preds)]
#[tactic(auto, using(c_syntax::proofs::Equations::pred_laws, crate::proofs::Quantifying::count_same))]
pub fn typed_pred(
    alloc: Global,
    around: &Around<'_>,
    names: &mut Bound,
    reading: Reading,
    count: &mut Count,
    pred: &Pred,
) -> Result<Tree, Stop>
    ensures typed { Gives (λ x. (view_tree x, count.new)) result (spec.typed_pred (view_around around.now) names.old reading count.old (view_pred pred.now)) }
    ensures names { OnOk result (names.new ≡ names.old) }
{
    let line = pred.line;
    match pred.node.look() {
        PredShape::Leaf(PredLeaf::True) => truth(alloc, count, line, true),
        PredShape::Leaf(PredLeaf::False) => truth(alloc, count, line, false),
        PredShape::Leaf(PredLeaf::Chain(terms, ops)) => {
            chain_typed(alloc, around, names, reading, count, line, terms, ops)
        }
        PredShape::Leaf(PredLeaf::Valid(pointer)) => {
            typed_valid(
                alloc,
                around,
                names,
                reading,
                count,
                line,
                true,
                pointer.get(),
            )
        }
        PredShape::Leaf(PredLeaf::ValidRead(pointer)) => {
            typed_valid(
                alloc,
                around,
                names,
                reading,
                count,
                line,
                false,
                pointer.get(),
            )
        }
        PredShape::Leaf(PredLeaf::Separated(pointers)) => {
            typed_separated(alloc, around, names, reading, count, line, pointers)
        }
        PredShape::Leaf(PredLeaf::Call(name, args)) => {
            let called = called_at(around, names, false, args.len(), name);
            predicate_call(alloc, around, names, reading, count, line, called, args)
        }
        PredShape::One(PredOne::Not, inside) => {
            not_pred(alloc, around, names, reading, count, line, inside.get())
        }
        PredShape::One(PredOne::Old, inside) => {
            old_pred(alloc, around, names, reading, count, line, inside.get())
        }
        PredShape::One(PredOne::Let(name, value), inside) => {
            let_pred(
                alloc,
                around,
                names,
                reading,
                count,
                line,
                name,
                value.get(),
                inside.get(),
            )
        }
        PredShape::One(PredOne::Forall(binders), inside) => {
            quantifier(
                alloc,
                around,
                names,
                reading,
                count,
                line,
                true,
                binders,
                inside.get(),
            )
        }
        PredShape::One(PredOne::Exists(binders), inside) => {
            quantifier(
                alloc,
                around,
                names,
                reading,
                count,
                line,
                false,
                binders,
                inside.get(),
            )
        }
        PredShape::Two(PredTwo::And, first, second) => {
            two_preds(
                alloc,
                around,
                names,
                reading,
                count,
                line,
                Head::And,
                first.get(),
                second.get(),
            )
        }
        PredShape::Two(PredTwo::Xor, first, second) => {
            two_preds(
                alloc,
                around,
                names,
                reading,
                count,
                line,
                Head::Xor,
                first.get(),
                second.get(),
            )
        }
        PredShape::Two(PredTwo::Or, first, second) => {
            two_preds(
                alloc,
                around,
                names,
                reading,
                count,
                line,
                Head::Or,
                first.get(),
                second.get(),
            )
        }
        PredShape::Two(PredTwo::Implies, first, second) => {
            two_preds(
                alloc,
                around,
                names,
                reading,
                count,
                line,
                Head::Implies,
                first.get(),
                second.get(),
            )
        }
        PredShape::Two(PredTwo::Iff, first, second) => {
            two_preds(
                alloc,
                around,
                names,
                reading,
                count,
                line,
                Head::Iff,
                first.get(),
                second.get(),
            )
        }
        PredShape::Cond(test, first, second) => {
            choice(
                alloc,
                around,
                names,
                reading,
                count,
                line,
                test.get(),
                first.get(),
                second.get(),
            )
        }
    }
}

#[cycle(preds)]
#[tactic(auto, using(c_answers::proofs::After::after_laws))]
fn not_pred(
    alloc: Global,
    around: &Around<'_>,
    names: &mut Bound,
    reading: Reading,
    count: &mut Count,
    line: Line,
    inside: &Pred,
) -> Result<Tree, Stop>
    ensures typed { Gives (λ x. (view_tree x, count.new)) result (spec.typed_pred (view_around around.now) names.old reading count.old (p.not_of line (view_pred inside.now))) }
    ensures names { OnOk result (names.new ≡ names.old) }
{
    count.add_node(line);
    let inside = typed_pred(alloc, around, names, reading, count, inside)?;
    Ok(one(alloc, Head::Not, inside)?)
}

#[cycle(preds)]
#[tactic(auto, using(c_answers::proofs::After::after_laws))]
fn old_pred(
    alloc: Global,
    around: &Around<'_>,
    names: &mut Bound,
    reading: Reading,
    count: &mut Count,
    line: Line,
    inside: &Pred,
) -> Result<Tree, Stop>
    ensures typed { Gives (λ x. (view_tree x, count.new)) result (spec.typed_pred (view_around around.now) names.old reading count.old (p.old line (view_pred inside.now))) }
    ensures names { OnOk result (names.new ≡ names.old) }
{
    let label = old_at(around.site);
    let before = count.limit;
    count.add_node(line);
    let at = count.limit;
    let inside = typed_pred(alloc, around, names, reading.under(label), count, inside)?;
    let made = labelled(alloc, line, label, inside);
    closed_tree(before, at, count, made)
}

#[cycle(preds)]
#[tactic(auto, using(c_answers::proofs::After::after_laws))]
fn two_preds(
    alloc: Global,
    around: &Around<'_>,
    names: &mut Bound,
    reading: Reading,
    count: &mut Count,
    line: Line,
    head: Head,
    first: &Pred,
    second: &Pred,
) -> Result<Tree, Stop>
    ensures typed { Gives (λ x. (view_tree x, count.new)) result (spec.two_typed (view_around around.now) names.old reading count.old line head (view_pred first.now) (view_pred second.now)) }
    ensures names { OnOk result (names.new ≡ names.old) }
{
    let first = typed_pred(alloc, around, names, reading, count, first)?;
    count.add_node(line);
    let second = typed_pred(alloc, around, names, reading, count, second)?;
    Ok(two(alloc, head, first, second)?)
}

#[cycle(preds)]
#[tactic(auto, using(c_answers::proofs::After::after_laws))]
fn choice(
    alloc: Global,
    around: &Around<'_>,
    names: &mut Bound,
    reading: Reading,
    count: &mut Count,
    line: Line,
    test: &Pred,
    first: &Pred,
    second: &Pred,
) -> Result<Tree, Stop>
    ensures typed { Gives (λ x. (view_tree x, count.new)) result (spec.typed_pred (view_around around.now) names.old reading count.old (p.cond line (view_pred test.now) (view_pred first.now) (view_pred second.now))) }
    ensures names { OnOk result (names.new ≡ names.old) }
{
    let test = typed_pred(alloc, around, names, reading, count, test)?;
    count.add_node(line);
    let first = typed_pred(alloc, around, names, reading, count, first)?;
    let second = typed_pred(alloc, around, names, reading, count, second)?;
    Ok(three(alloc, Head::Choose, test, first, second)?)
}

#[cycle(preds)]
#[tactic(auto, using(c_answers::proofs::After::after_laws, crate::proofs::Quantifying::let_left))]
fn let_pred(
    alloc: Global,
    around: &Around<'_>,
    names: &mut Bound,
    reading: Reading,
    count: &mut Count,
    line: Line,
    name: &Str,
    value: &Term,
    inside: &Pred,
) -> Result<Tree, Stop>
    ensures typed { Gives (λ x. (view_tree x, count.new)) result (spec.typed_pred (view_around around.now) names.old reading count.old (p.let_in line name.now (view_term value.now) (view_pred inside.now))) }
    ensures names { OnOk result (names.new ≡ names.old) }
{
    let before = count.limit;
    count.add_node(line);
    let at = count.limit;
    let value = typed_term(alloc, around, names, reading, count, value)?;
    let value = let_value(alloc, line, value)?;
    let known = names.types.len();
    enter(alloc, names)?;
    bind(alloc, names, name, value.ty)?;
    let body = typed_pred(alloc, around, names, reading, count, inside)?;
    leave(alloc, names, known);
    let made = let_tree(alloc, line, value.is_value, value.tree, body);
    closed_tree(before, at, count, made)
}

#[cycle(preds)]
#[tactic(auto, using(c_answers::proofs::After::after_laws, crate::proofs::Quantifying::binders_left))]
fn quantifier(
    alloc: Global,
    around: &Around<'_>,
    names: &mut Bound,
    reading: Reading,
    count: &mut Count,
    line: Line,
    for_all: bool,
    decls: &List<VarDecl>,
    inside: &Pred,
) -> Result<Tree, Stop>
    ensures typed { Gives (λ x. (view_tree x, count.new)) result (spec.quantifier_typed (view_around around.now) names.old reading count.old line for_all (map view_var decls.now) (view_pred inside.now)) }
    ensures names { OnOk result (names.new ≡ names.old) }
{
    count.add_node(line);
    let place = BinderPlace {
        line,
        node: count.weight.own,
    };
    let known = names.types.len();
    let overs = binders_typed(alloc, around, names, count.limit, for_all, decls, inside)?;
    let body = typed_pred(alloc, around, names, reading, count, inside)?;
    leave(alloc, names, known);
    Ok(quantified(alloc, place, for_all, overs.as_slice(), body)?)
}
