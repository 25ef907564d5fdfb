// What is so of core programs with checks.
ghost use Rattle.c_runs.specs.Examples.{ChecksInOrder};
ghost use Rattle.c_runs.specs.CheckedLaws.{ChecksKeep};

/// A core program with its checks has the outcome of the program without.
pub fn checks_keep()
    ensures { ChecksKeep }
{}

/// Small functions have their checks in this order.
#[tactic(auto, using(crate::proofs::Ordered::checks_in_order))]
pub fn checks_in_order()
    ensures { ChecksInOrder }
{}
