// Definitions that call themselves (ACSL 2.6.1, 2.6.6).
ghost use Rattle.std.specs.Prelude.{◌≡◌, IfOk, map, option_map};
ghost use Rattle.std.specs.Option.{option_copied};
ghost use Rattle.c_syntax.specs.View.{view_logic, view_term, view_var};
ghost use Rattle.acsl_guards.specs.Recursive as spec;
ghost use Rattle.acsl_guards.specs.Parts.{binary_seen};

use crate::names::is_name;
use crate::preds::calls_in_pred;
use crate::ranges::is_integer;
use crate::terms::calls_in_term;
use c_syntax::{
    BinOp, LogicBody, LogicDecl, Term, TermLeaf, TermShape, TermTwo, Token, TokenKind, VarDecl,
};
use std::alloc::Global;
use wp_base::{List, NoMemory, Str};

/// Whether a definition calls itself, anywhere in its body.
pub fn calls_itself(alloc: Global, definition: &LogicDecl) -> Result<bool, NoMemory>
    ensures { IfOk result (λ found. found ≡ spec.calls_itself (view_logic definition.now)) }
{
    match &definition.body {
        LogicBody::Term(term) => calls_in_term(alloc, &definition.name, term),
        LogicBody::Pred(pred) => calls_in_pred(alloc, &definition.name, pred),
    }
}

// ---- parts of terms

fn value_of(token: &Token) -> Option<i128>
    ensures { result ≡ spec.value_of token.now }
{
    match &token.kind {
        TokenKind::Number {
            value,
            base: _,
            suffix: _,
        } => Some(*value),
        TokenKind::Name(_) => None,
        TokenKind::Word(_) => None,
        TokenKind::Char(_) => None,
        TokenKind::Punct(_) => None,
        TokenKind::AnnotOpen => None,
        TokenKind::AnnotClose => None,
    }
}

// The value of a term that is a number as spelled.
#[tactic(auto, using(c_syntax::proofs::Equations::term_laws))]
fn number_of(term: &Term) -> Option<i128>
    ensures { result ≡ spec.number_of (view_term term.now) }
{
    match term.node.look() {
        TermShape::Leaf(TermLeaf::Number(token)) => value_of(token),
        TermShape::Leaf(TermLeaf::Char(_)) => None,
        TermShape::Leaf(TermLeaf::Name(_)) => None,
        TermShape::Leaf(TermLeaf::Result) => None,
        TermShape::Leaf(TermLeaf::Null) => None,
        TermShape::One(_, _) => None,
        TermShape::Two(_, _, _) => None,
        TermShape::Cond(_, _, _) => None,
        TermShape::Call(_, _) => None,
    }
}

// An operator of two operands, with these.
#[tactic(auto, using(c_syntax::proofs::Equations::term_laws))]
fn binary_of(term: &Term) -> Option<(BinOp, (&Term, &Term))>
    ensures { option_map binary_seen result ≡ spec.binary_of (view_term term.now) }
{
    match term.node.look() {
        TermShape::Two(TermTwo::Binary(op), left, right) => Some((op, (left.get(), right.get()))),
        TermShape::Two(TermTwo::Index, _, _) => None,
        TermShape::Two(TermTwo::Range, _, _) => None,
        TermShape::Leaf(_) => None,
        TermShape::One(_, _) => None,
        TermShape::Cond(_, _, _) => None,
        TermShape::Call(_, _) => None,
    }
}

// The test of a conditional.
#[tactic(auto, using(c_syntax::proofs::Equations::term_laws))]
fn test_of(term: &Term) -> Option<&Term>
    ensures { option_map view_term (option_copied result) ≡ spec.test_of (view_term term.now) }
{
    match term.node.look() {
        TermShape::Cond(test, _, _) => Some(test.get()),
        TermShape::Leaf(_) => None,
        TermShape::One(_, _) => None,
        TermShape::Two(_, _, _) => None,
        TermShape::Call(_, _) => None,
    }
}

fn is_at_most(op: BinOp) -> bool
    ensures { result ≡ spec.is_at_most op }
{
    matches!(op, BinOp::AtMost)
}

fn is_minus(op: BinOp) -> bool
    ensures { result ≡ spec.is_minus op }
{
    matches!(op, BinOp::Sub)
}

#[tactic(auto, using(crate::proofs::Last::var_seen))]
fn last_param(params: &List<VarDecl>) -> Option<&VarDecl>
    ensures { option_map view_var (option_copied result) ≡ spec.last_of (map view_var params.now) }
{
    if params.len() == 0 {
        return None;
    }
    params.get(params.len() - 1)
}

#[tactic(auto, using(crate::proofs::Last::term_seen))]
fn last_arg(args: &List<Term>) -> Option<&Term>
    ensures { option_map view_term (option_copied result) ≡ spec.last_of (map view_term args.now) }
{
    if args.len() == 0 {
        return None;
    }
    args.get(args.len() - 1)
}

// ---- the form

fn is_number(term: &Term) -> bool
    ensures { result ≡ spec.is_number (spec.number_of (view_term term.now)) }
{
    match number_of(term) {
        Some(_) => true,
        None => false,
    }
}

fn is_one(term: &Term) -> bool
    ensures { result ≡ spec.is_one (spec.number_of (view_term term.now)) }
{
    match number_of(term) {
        Some(value) => value == 1,
        None => false,
    }
}

// Whether a term is `n <= c`, with a number as spelled.
fn is_base_test(name: &Str, test: &Term) -> bool
    ensures { result ≡ spec.is_base_test name.now (spec.binary_of (view_term test.now)) }
{
    match binary_of(test) {
        Some((op, (left, right))) => is_at_most(op) && is_name(name, left) && is_number(right),
        None => false,
    }
}

// Whether a term is `n - 1`.
fn is_step(name: &Str, arg: &Term) -> bool
    ensures { result ≡ spec.is_step name.now (spec.binary_of (view_term arg.now)) }
{
    match binary_of(arg) {
        Some((op, (left, right))) => is_minus(op) && is_name(name, left) && is_one(right),
        None => false,
    }
}

/// Whether the body of a logic function is `n <= c ? E0 : E1`, with its last parameter n, of type `integer`, and a number c as spelled.
pub fn is_recursive_form(params: &List<VarDecl>, body: &Term) -> bool
    ensures { result ≡ spec.is_recursive_form (map view_var params.now) (view_term body.now) }
{
    match last_param(params) {
        Some(param) => match test_of(body) {
            Some(test) => is_integer(&param.ty) && is_base_test(&param.name, test),
            None => false,
        },
        None => false,
    }
}

/// Whether the last argument of a call in the body of a logic function is `n - 1`, with its last parameter n.
pub fn steps_down(params: &List<VarDecl>, args: &List<Term>) -> bool
    ensures { result ≡ spec.steps_down (map view_var params.now) (map view_term args.now) }
{
    match last_param(params) {
        Some(param) => match last_arg(args) {
            Some(arg) => is_step(&param.name, arg),
            None => false,
        },
        None => false,
    }
}
