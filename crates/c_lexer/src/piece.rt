// What stands at a place of a text.

use c_syntax::TokenKind;
use wp_base::Rule;

/// What stands at a place of a text, with its length.
#[derive(Drop)]
pub enum Piece {
    /// Blanks, a comment, or a line marker.
    Skip(usize),
    Token(TokenKind, usize),
    /// An annotation: the lengths of its inside, and of what ends it. What opens it has three bytes.
    Annot(usize, usize),
    /// Nothing that may stand there.
    Fault(Rule),
}
