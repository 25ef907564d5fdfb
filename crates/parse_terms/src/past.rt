// What comes after a bracket.
ghost use Rattle.std.specs.Prelude.{◌≡◌, false};
ghost use Rattle.c_grammar.specs.Reading.{past};
ghost use Rattle.c_grammar.specs.Views.{Finds};
ghost use Rattle.parse_terms.specs.Views.{side_of};

use c_syntax::{Punct, Token, TokenKind};

/// What a token is to the brackets around it.
#[derive(Clone, Copy)]
pub enum Side {
    Opens,
    Closes,
    /// `..`
    Dots,
    Neither,
}

fn side_of(kind: &TokenKind) -> Side
    ensures { result ≡ side_of kind.now }
{
    match kind {
        TokenKind::Punct(Punct::OpenParen | Punct::OpenBracket) => Side::Opens,
        TokenKind::Punct(Punct::CloseParen | Punct::CloseBracket) => Side::Closes,
        TokenKind::Punct(Punct::Range) => Side::Dots,
        _ => Side::Neither,
    }
}

/// Whether `..` stands directly in the bracket that is open here, and what comes after it.
#[tactic(auto, using(crate::proofs::Skipping::past_opens, crate::proofs::Skipping::past_closes, crate::proofs::Skipping::past_ends, crate::proofs::Skipping::past_dots, crate::proofs::Skipping::past_inner_dots, crate::proofs::Skipping::past_goes, crate::proofs::Skipping::past_out))]
pub fn past_at(tokens: &[Token]) -> Option<(bool, &[Token])>
    ensures { Finds (λ x. x) result (past 0 false tokens.now) }
{
    let mut depth: usize = 0;
    let mut found = false;
    let mut rest = tokens;
    for turn in 0..tokens.len() {
        let (first, after) = rest.split_first()?;
        match side_of(&first.kind) {
            Side::Opens => depth += 1,
            Side::Closes => {
                if depth == 0 {
                    return Some((found, after));
                }
                depth -= 1;
            }
            Side::Dots => found = found || depth == 0,
            Side::Neither => {}
        }
        rest = after;
    }
    None
}
