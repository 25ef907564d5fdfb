// Operators at the front of a list of tokens (C11 6.5).
ghost use Rattle.std.specs.Prelude.{◌≡◌};
ghost use Rattle.parse_exprs.specs.Operators as spec;
ghost use Rattle.c_grammar.specs.Operators as table;
ghost use Rattle.c_grammar.specs.Views.{Finds};

use c_grammar::{binop_of, level_of, unop_of};
use c_syntax::{BinOp, Punct, Token, TokenKind, UnOp};
use wp_base::Line;

// What stands before an operand.
#[derive(Clone, Copy)]
pub(crate) enum Prefix {
    Operator(UnOp),
    // `++` or `--`, and whether it counts up
    Step(bool),
}

// What stands behind an operand.
#[derive(Clone, Copy)]
pub(crate) enum Suffix {
    Index,
    // `.` or `->`, and whether it is the arrow
    Field(bool),
    // `++` or `--`, and whether it counts up
    Step(bool),
}

fn assign_of(punct: Punct) -> Option<Option<BinOp>>
    ensures { result ≡ table.assign_of punct }
{
    match punct {
        Punct::Assign => Some(None),
        Punct::MulAssign => Some(Some(BinOp::Mul)),
        Punct::DivAssign => Some(Some(BinOp::Div)),
        Punct::RemAssign => Some(Some(BinOp::Rem)),
        Punct::AddAssign => Some(Some(BinOp::Add)),
        Punct::SubAssign => Some(Some(BinOp::Sub)),
        Punct::ShlAssign => Some(Some(BinOp::Shl)),
        Punct::ShrAssign => Some(Some(BinOp::Shr)),
        Punct::BitAndAssign => Some(Some(BinOp::BitAnd)),
        Punct::BitXorAssign => Some(Some(BinOp::BitXor)),
        Punct::BitOrAssign => Some(Some(BinOp::BitOr)),
        _ => None,
    }
}

fn prefix_of(punct: Punct) -> Option<Prefix>
    ensures { result ≡ spec.prefix_of punct }
{
    if let Some(op) = unop_of(punct) {
        return Some(Prefix::Operator(op));
    }
    match punct {
        Punct::Increment => Some(Prefix::Step(true)),
        Punct::Decrement => Some(Prefix::Step(false)),
        _ => None,
    }
}

fn suffix_of(punct: Punct) -> Option<Suffix>
    ensures { result ≡ spec.suffix_of punct }
{
    match punct {
        Punct::OpenBracket => Some(Suffix::Index),
        Punct::Dot => Some(Suffix::Field(false)),
        Punct::Arrow => Some(Suffix::Field(true)),
        Punct::Increment => Some(Suffix::Step(true)),
        Punct::Decrement => Some(Suffix::Step(false)),
        _ => None,
    }
}

// An operator of two operands, of this level.
#[tactic(auto, unfolding(crate::specs::Operators::operator))]
pub(crate) fn operator(level: u32, tokens: &[Token]) -> Option<((BinOp, Line), &[Token])>
    ensures { Finds (λ x. x) result (spec.operator level tokens.now) }
{
    let (first, rest) = tokens.split_first()?;
    let TokenKind::Punct(punct) = first.kind else {
        return None;
    };
    let op = binop_of(punct)?;
    if level_of(op) == level {
        Some(((op, first.line), rest))
    } else {
        None
    }
}

// An operator of assignment: none for `=`, else that of a compound one.
#[tactic(auto, unfolding(crate::specs::Operators::assign_at))]
pub(crate) fn assign_at(tokens: &[Token]) -> Option<((Option<BinOp>, Line), &[Token])>
    ensures { Finds (λ x. x) result (spec.assign_at tokens.now) }
{
    let (first, rest) = tokens.split_first()?;
    let TokenKind::Punct(punct) = first.kind else {
        return None;
    };
    let op = assign_of(punct)?;
    Some(((op, first.line), rest))
}

#[tactic(auto, unfolding(crate::specs::Operators::prefix_at))]
pub(crate) fn prefix_at(tokens: &[Token]) -> Option<((Prefix, Line), &[Token])>
    ensures { Finds (λ x. x) result (spec.prefix_at tokens.now) }
{
    let (first, rest) = tokens.split_first()?;
    let TokenKind::Punct(punct) = first.kind else {
        return None;
    };
    let prefix = prefix_of(punct)?;
    Some(((prefix, first.line), rest))
}

#[tactic(auto, unfolding(crate::specs::Operators::suffix_at))]
pub(crate) fn suffix_at(tokens: &[Token]) -> Option<((Suffix, Line), &[Token])>
    ensures { Finds (λ x. x) result (spec.suffix_at tokens.now) }
{
    let (first, rest) = tokens.split_first()?;
    let TokenKind::Punct(punct) = first.kind else {
        return None;
    };
    let suffix = suffix_of(punct)?;
    Some(((suffix, first.line), rest))
}
