// What is so of the core program that a program as spelled becomes.
ghost use Rattle.c_runs.specs.NormalLaws.{AllCore, SameOutcome};

/// The core program has the outcome of the spelled one.
pub fn same_outcome()
    ensures { SameOutcome }
{}

/// What is made are core statements: no effect, connective or choice is left in an expression.
#[tactic(auto, using(crate::proofs::Pureness::all_core))]
pub fn all_core()
    ensures { AllCore }
{}
