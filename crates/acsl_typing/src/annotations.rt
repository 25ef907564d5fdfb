// What the annotations of a file say.

use acsl_clauses::TypedClause;
use acsl_names::Definitions;
use acsl_notes::Note;
use acsl_trees::Tree;
use wp_base::List;

/// What the annotations of a declaration say.
#[derive(Drop)]
pub enum Annotation {
    /// The contract of a function, clause by clause, and what stands in its body, in the order of the text.
    Function(List<TypedClause>, List<Note>),
    /// What a predicate or a logic function stands for; its parameters are the names with the first numbers.
    Definition(Tree),
}

/// The annotations of a typed file.
#[derive(Drop)]
pub struct Annotations {
    pub definitions: Definitions,
    /// What each declaration with annotations says, in the order of the text.
    pub items: List<Annotation>,
}

/// What is known so far. At a fault it may only be dropped.
#[derive(Drop)]
pub(crate) struct Annotating {
    /// How many cells each struct of the file has.
    pub(crate) sizes: Vec<u32>,
    pub(crate) definitions: Definitions,
    /// Which functions have a contract, by their numbers.
    pub(crate) contracted: Vec<bool>,
    /// How many bodies were read.
    pub(crate) bodies: usize,
    pub(crate) items: List<Annotation>,
}
