// Laws of goals, each the contract of a function that does nothing.
ghost use Rattle.memory_functions.specs.Examples.{ExampleGoals};

/// The goals of the examples are those worked out by hand.
#[tactic(auto, using(crate::proofs::Worked::example_goals))]
pub fn example_goals()
    ensures { ExampleGoals }
{}
