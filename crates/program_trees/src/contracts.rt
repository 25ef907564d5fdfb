// Contracts of functions (ACSL 2.3).
use acsl_trees::Tree;
use core_trees::{Claim, Measure};
use wp_base::{Line, List};

/// What is promised where all that is assumed holds. Without a set of regions, any change is allowed.
#[derive(Drop)]
pub struct Behavior {
    pub assumes: List<Tree>,
    pub requires_: List<Claim>,
    pub ensures_: List<Claim>,
    pub assigns: Option<List<Tree>>,
}

/// That one of these behaviors is there, or that no two of them are at once; none are named for all of them.
#[derive(Drop)]
pub struct Together {
    pub is_complete: bool,
    pub numbers: List<u32>,
    pub line: Line,
}

/// The contract of a function.
#[derive(Drop)]
pub struct Contract {
    /// What stands outside of behaviors, which nothing is assumed of.
    pub plain: Behavior,
    pub decreases: Option<Measure>,
    pub behaviors: List<Behavior>,
    pub together: List<Together>,
}
