// What is so of checks.
ghost use Rattle.c_runs.specs.Failing.{NoneIsIdle};
ghost use Rattle.c_runs.specs.CheckLaws.{Checked};

/// An expression of a core program has its total value where all its checks are met; else it is undefined, of the kind and at the line of the first one
/// that isn't.
#[tactic(auto, using(crate::proofs::Checking::checked))]
pub fn checked()
    ensures { Checked }
{}

/// For each check of an operator there are operands for which it is the first that isn't met.
#[tactic(auto, using(crate::proofs::Idle::none_is_idle))]
pub fn none_is_idle()
    ensures { NoneIsIdle }
{}
