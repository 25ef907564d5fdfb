// Clauses whose terms are typed.

use crate::items::{Group, Role};
use acsl_trees::Tree;
use wp_base::{Line, List};

/// What a clause says.
#[derive(Drop)]
pub enum Said {
    /// A predicate in its role; that of an `ensures` speaks of the state at the return.
    Claims(Role, Tree),
    /// An integer that has to decrease.
    Decreases(Tree),
    /// The regions that may be assigned.
    Assigns(List<Tree>),
    /// The behavior with this number begins, the first being 0: the clauses behind are its own, up to the next one or to what is said of several.
    Begins(u32),
    /// Behaviors by their numbers; none for all of them.
    Together(Group, List<u32>),
}

/// A typed clause, with the line of its first token.
#[derive(Drop)]
pub struct TypedClause {
    pub said: Said,
    pub line: Line,
}
