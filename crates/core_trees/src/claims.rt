// Annotations in their places (ACSL 2.4).
use acsl_trees::Tree;
use wp_base::{Line, List};

/// A predicate that has to be true, and the line of its clause.
#[derive(Drop)]
pub struct Claim {
    pub what: Tree,
    pub line: Line,
}

/// A number that has to become smaller, and the line of its clause.
#[derive(Drop)]
pub struct Measure {
    pub what: Tree,
    pub line: Line,
}

/// What is claimed of a loop (ACSL 2.4.2); the line of its clause on what it assigns, 0 where it has none; and how many variables of
/// its function are declared before it. Without a set of regions, any change is allowed.
#[derive(Drop)]
pub struct Loop {
    pub invariants: List<Claim>,
    pub assigns: Option<List<Tree>>,
    pub line: Line,
    pub variant: Option<Measure>,
    pub declared: u32,
}
