// What may come behind a predicate, and the operators of predicates.
ghost use Rattle.std.specs.Prelude.{◌≡◌};
ghost use Rattle.std.specs.Option.{option_map};
ghost use Rattle.c_grammar.specs.Operators.{comparison_of as spec_comparison_of, connective_of as spec_connective_of};
ghost use Rattle.c_grammar.specs.Views.{Finds};
ghost use Rattle.parse_preds.specs.Next as spec;
ghost use Rattle.parse_preds.specs.Views.{view_connective, view_found};

use c_syntax::{BinOp, Punct, Token, TokenKind};
use wp_base::Line;

/// A connective that groups to the left: `&&`, `^^` or `||`.
#[derive(Clone, Copy)]
pub enum Connective {
    Both,
    OneOf,
    Either,
}

fn ends_atom_by(punct: Punct) -> bool
    ensures { result ≡ spec.ends_atom_by punct }
{
    match punct {
        Punct::Less => false,
        Punct::AtMost => false,
        Punct::Greater => false,
        Punct::AtLeast => false,
        Punct::Equal => false,
        Punct::NotEqual => false,
        Punct::Star => false,
        Punct::Slash => false,
        Punct::Percent => false,
        Punct::Plus => false,
        Punct::Minus => false,
        Punct::Shl => false,
        Punct::Shr => false,
        Punct::OpenParen => false,
        Punct::OpenBracket => false,
        Punct::Dot => false,
        Punct::Arrow => false,
        _ => true,
    }
}

fn ends_pred_by(punct: Punct) -> bool
    ensures { result ≡ spec.ends_pred_by punct }
{
    match punct {
        Punct::And => false,
        Punct::Xor => false,
        Punct::Or => false,
        Punct::Implies => false,
        Punct::Iff => false,
        Punct::Question => false,
        _ => ends_atom_by(punct),
    }
}

/// Whether a predicate may end here: no connective and no part of an atom comes next.
#[tactic(auto, unfolding(crate::specs::Next::ends_pred))]
pub fn ends_pred(tokens: &[Token]) -> bool
    ensures { result ≡ spec.ends_pred tokens.now }
{
    let Some((first, _)) = tokens.split_first() else {
        return true;
    };
    match first.kind {
        TokenKind::Punct(punct) => ends_pred_by(punct),
        _ => true,
    }
}

fn comparison_of(punct: Punct) -> Option<BinOp>
    ensures { result ≡ spec_comparison_of punct }
{
    match punct {
        Punct::Less => Some(BinOp::Less),
        Punct::AtMost => Some(BinOp::AtMost),
        Punct::Greater => Some(BinOp::Greater),
        Punct::AtLeast => Some(BinOp::AtLeast),
        Punct::Equal => Some(BinOp::Equal),
        Punct::NotEqual => Some(BinOp::NotEqual),
        _ => None,
    }
}

/// A comparison, with its line.
#[tactic(auto, unfolding(crate::specs::Next::comparison_at))]
pub fn comparison_at(tokens: &[Token]) -> Option<((BinOp, Line), &[Token])>
    ensures { Finds (λ x. x) result (spec.comparison_at tokens.now) }
{
    let (first, rest) = tokens.split_first()?;
    match first.kind {
        TokenKind::Punct(punct) => match comparison_of(punct) {
            Some(op) => Some(((op, first.line), rest)),
            None => None,
        },
        _ => None,
    }
}

// The connective of a level, from the tightest, 1.
fn connective_of(level: u32, punct: Punct) -> Option<Connective>
    ensures { option_map view_connective result ≡ spec.of_level level (spec_connective_of punct) }
{
    match punct {
        Punct::And if level == 1 => Some(Connective::Both),
        Punct::Xor if level == 2 => Some(Connective::OneOf),
        Punct::Or if level == 3 => Some(Connective::Either),
        _ => None,
    }
}

/// A connective of the level, with its line.
#[tactic(auto, unfolding(crate::specs::Next::connective_at))]
pub fn connective_at(level: u32, tokens: &[Token]) -> Option<((Connective, Line), &[Token])>
    ensures { Finds view_found result (spec.connective_at level tokens.now) }
{
    let (first, rest) = tokens.split_first()?;
    match first.kind {
        TokenKind::Punct(punct) => match connective_of(level, punct) {
            Some(connective) => Some(((connective, first.line), rest)),
            None => None,
        },
        _ => None,
    }
}
