// What a body is read with.
use annotation_words::{Called, GlobalName, Named};
use program_trees::Facts;

/// The parameters of the function, and the variables of the file that it is given; and how logic functions are called, by their numbers.
#[derive(Clone, Copy)]
pub struct BodyReading<'a> {
    pub facts: &'a Facts,
    pub params: &'a [Named],
    pub globals: &'a [GlobalName],
    pub called: &'a [Option<Called>],
}
