// Parts of annotations at places among all tokens of a text (ACSL 2.3 to 2.6).
ghost use Rattle.std.specs.Prelude.{◌≡◌, ◌≤◌, ◌<◌, ◌-◌, ℕ, true, false, IfOk, length};
ghost use Rattle.c_syntax.specs.Contract as n;
ghost use Rattle.c_syntax.specs.Decl as d;
ghost use Rattle.c_syntax.specs.Pred as r;
ghost use Rattle.c_syntax.specs.View.{view_contract, view_logic, view_loop, view_pred};
ghost use Rattle.c_grammar.specs.declared.limits.TheConstants.{DEEPEST};
ghost use Rattle.c_grammar.specs.Annots.{SpellsContract, SpellsLogic, SpellsLoop};
ghost use Rattle.acsl_parser.specs.Places as spec;
ghost use Rattle.acsl_parser.specs.Places.{OnlyPart, RefusesAt, StandsAt};
ghost use Rattle.acsl_parser.specs.Spelled.{SpellsAssertAlone};

use crate::annots::{assert_at, contract_at, loop_at};
use crate::logics::logic_at;
use crate::words::place_of;
use c_grammar::{DEEPEST, Fault, Read, TypeNames};
use c_syntax::{Contract, LogicDecl, LoopAnnot, Pred, Token, TokenKind, Tokens};
use std::alloc::Global;
use wp_base::{Line, Refusal, Rule, Stop};

// Whether what ends an annotation comes first.
fn is_closed(tokens: &[Token]) -> bool
    ensures { result ≡ spec.is_closed tokens.now }
{
    match tokens.first() {
        Some(token) => match token.kind {
            TokenKind::AnnotClose => true,
            TokenKind::Name(_) => false,
            TokenKind::Word(_) => false,
            TokenKind::Number {
                value,
                base,
                suffix,
            } => false,
            TokenKind::Char(_) => false,
            TokenKind::Punct(_) => false,
            TokenKind::AnnotOpen => false,
        },
        None => false,
    }
}

fn unspelled(line: Line) -> Stop
    ensures { result ≡ spec.unspelled line }
{
    Stop::Refused(Refusal {
        rule: Rule::Syntax,
        line,
    })
}

// What was read, with the place behind it; where it closes, the end of the annotation has to come there.
fn placed<T: Drop>(
    closes: bool,
    end: usize,
    line: Line,
    found: Read<'_, T>,
) -> Result<(T, usize), Stop>
    ensures { result ≡ spec.placed closes end line found.entry }
{
    match found {
        Ok((part, rest)) => {
            if closes && !is_closed(rest) {
                return Err(unspelled(line));
            }
            Ok((part, place_of(end, rest)))
        }
        Err(Fault::Syntax) => Err(unspelled(line)),
        Err(Fault::NoMemory) => Err(Stop::NoMemory),
    }
}

/// The contract from the place `at` up to the end of its annotation, and the place of that end. `types` are
/// the typedef names declared before. No contract there: refused by the rule of syntax, on the line of the
/// token at the place.
pub fn parse_contract(
    alloc: Global,
    tokens: &Tokens,
    types: &TypeNames,
    at: usize,
) -> Result<(Contract, usize), Stop>
    requires { at < length tokens.now }
    ensures spelled { IfOk result (λ x. StandsAt (SpellsContract types.now at) true tokens.now at (view_contract x.0) x.1) }
    ensures only { (c : n.Contract) (next : ℕ) → StandsAt (SpellsContract types.now at) true tokens.now at c next → OnlyPart view_contract result c next }
    ensures refusal { (x : Refusal) → result ≡ Err (Stop.Refused x) → RefusesAt tokens.now at x }
{
    let all = tokens.as_slice();
    let found = contract_at(alloc, types, all.len(), &all[at..]);
    placed(true, all.len(), all[at].line, found)
}

/// The annotation of a loop from the place `at` up to its end, and the place of that end. `depth` forms are
/// open around it.
pub fn parse_loop(
    alloc: Global,
    tokens: &Tokens,
    types: &TypeNames,
    depth: u32,
    at: usize,
) -> Result<(LoopAnnot, usize), Stop>
    requires place { at < length tokens.now }
    requires few { depth ≤ DEEPEST }
    ensures spelled { IfOk result (λ x. StandsAt (SpellsLoop types.now (DEEPEST - depth) at) true tokens.now at (view_loop x.0) x.1) }
    ensures only { (c : n.LoopAnnot) (next : ℕ) → StandsAt (SpellsLoop types.now (DEEPEST - depth) at) true tokens.now at c next → OnlyPart view_loop result c next }
    ensures refusal { (x : Refusal) → result ≡ Err (Stop.Refused x) → RefusesAt tokens.now at x }
{
    let all = tokens.as_slice();
    let found = loop_at(alloc, types, DEEPEST - depth, all.len(), &all[at..]);
    placed(true, all.len(), all[at].line, found)
}

// An assertion without the line of its word.
fn without_line(found: Read<'_, (Pred, Line)>) -> Read<'_, Pred>
    ensures { result ≡ spec.without_line found.entry }
{
    match found {
        Ok(((pred, _), rest)) => Ok((pred, rest)),
        Err(fault) => Err(fault),
    }
}

/// An assertion from the place `at` up to the end of its annotation, and the place of that end. `depth` forms
/// are open around it.
pub fn parse_assert(
    alloc: Global,
    tokens: &Tokens,
    types: &TypeNames,
    depth: u32,
    at: usize,
) -> Result<(Pred, usize), Stop>
    requires place { at < length tokens.now }
    requires few { depth ≤ DEEPEST }
    ensures spelled { IfOk result (λ x. StandsAt (SpellsAssertAlone types.now (DEEPEST - depth)) true tokens.now at (view_pred x.0) x.1) }
    ensures only { (a : r.Pred) (next : ℕ) → StandsAt (SpellsAssertAlone types.now (DEEPEST - depth)) true tokens.now at a next → OnlyPart view_pred result a next }
    ensures refusal { (x : Refusal) → result ≡ Err (Stop.Refused x) → RefusesAt tokens.now at x }
{
    let all = tokens.as_slice();
    let found = assert_at(alloc, types, DEEPEST - depth, &all[at..]);
    placed(true, all.len(), all[at].line, without_line(found))
}

/// A definition of a predicate or a logic function from the place `at` on, and the place behind it.
pub fn parse_global(
    alloc: Global,
    tokens: &Tokens,
    types: &TypeNames,
    at: usize,
) -> Result<(LogicDecl, usize), Stop>
    requires { at < length tokens.now }
    ensures spelled { IfOk result (λ x. StandsAt (SpellsLogic types.now) false tokens.now at (view_logic x.0) x.1) }
    ensures only { (a : d.LogicDecl) (next : ℕ) → StandsAt (SpellsLogic types.now) false tokens.now at a next → OnlyPart view_logic result a next }
    ensures refusal { (x : Refusal) → result ≡ Err (Stop.Refused x) → RefusesAt tokens.now at x }
{
    let all = tokens.as_slice();
    let found = logic_at(alloc, types, &all[at..]);
    placed(false, all.len(), all[at].line, found)
}
