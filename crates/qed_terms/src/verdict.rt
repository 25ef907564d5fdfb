// What a proof of a goal ends with, and the branches that it goes through.
ghost use Rattle.std.specs.Prelude.{◌≡◌, IfOk};

use crate::copies::copy_formulas;
use crate::term::Formula;
use std::alloc::Global;
use wp_base::{List, NoMemory};

/// How the expansion of a goal ended: every branch is closed, one stays open, there are too many, or one
/// is too large.
#[derive(Clone, Copy, Debug, PartialEq, Eq)]
pub enum Verdict {
    Proved,
    Open,
    Branches,
    Size,
}

/// What is taken to hold together: literals, and the formulas that are still to be taken apart.
#[derive(Drop)]
pub struct Branch {
    pub literals: List<Formula>,
    pub waiting: List<Formula>,
}

impl Branch {
    /// A copy, which equals its source.
    pub fn copy(&self, alloc: Global) -> Result<Branch, NoMemory>
        ensures { IfOk result (λ branch. branch ≡ self.now) }
    {
        let literals = copy_formulas(&self.literals, alloc)?;
        let waiting = copy_formulas(&self.waiting, alloc)?;
        Ok(Branch { literals, waiting })
    }
}

/// A branch whose formulas are kept in a store.
#[derive(Drop)]
pub struct IdBranch<I> {
    pub literals: List<I>,
    pub waiting: List<I>,
}
