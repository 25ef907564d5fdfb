// What is left of the annotations of a body.

use acsl_notes::Note;

/// The annotations of a body that don't have their statements yet, the next one first, and how many variables are declared so far.
#[derive(Clone, Copy)]
pub struct Left<'n> {
    pub notes: &'n [Note],
    pub declared: u32,
}
