// A place of a text, behind a piece.

use wp_base::Line;

/// What is known behind a piece: the line, whether only blanks and comments come before on it, and how
/// long the piece is.
#[derive(Clone, Copy)]
pub struct Place {
    pub line: Line,
    pub fresh: bool,
    pub len: usize,
}
