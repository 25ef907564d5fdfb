// Sketches of terms and formulas.

use qed_terms::Head;
use wp_base::{List, NoMemory};

/// A term or a formula that no store holds yet: a head over others, or the slot of one that a store holds, by its number.
#[derive(Drop)]
pub enum Sketch {
    Slot(usize),
    Over(Head, List<Sketch>),
}

/// A sketch, where there was memory for it. What draws takes drafts, so that a formula is drawn in one expression.
pub type Draft = Result<Sketch, NoMemory>;
