// A law of the definitions, the contract of a function that does nothing.
ghost use Rattle.closed_branches.specs.ClosedBranches.{ClosedHasNoModel};

use crate::rules::LiteralTest;

/// A closed branch has no model.
pub fn closed_has_no_model<T: LiteralTest>()
    ensures { ClosedHasNoModel T.refuted }
{}
