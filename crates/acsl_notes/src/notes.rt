// What the annotations of a body say, and what is known where one stands.

use acsl_clauses::TypedClause;
use acsl_names::{Before, Definitions, Within};
use acsl_trees::Tree;
use name_table::Scopes;
use wp_base::List;

/// An annotation in the body of a function.
#[derive(Drop)]
pub enum Note {
    /// That of a loop, clause by clause.
    Loop(List<TypedClause>),
    Assertion(Tree),
}

/// What encloses the annotations of a body.
#[derive(Clone, Copy)]
pub struct Enclosing<'a> {
    pub before: Before<'a>,
    pub definitions: &'a Definitions,
    pub within: Within<'a>,
}

/// The annotations so far, and what is known behind them. At a fault it may only be dropped.
#[derive(Drop)]
pub(crate) struct Noted {
    pub(crate) notes: List<Note>,
    /// The locals in scope, by their numbers.
    pub(crate) blocks: Scopes<u32>,
    /// How many locals are declared, parameters among them.
    pub(crate) declared: u32,
}
