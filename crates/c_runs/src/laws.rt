// What is so of runs.
ghost use Rattle.c_runs.specs.Laws.{CompleteComesFirst, OperatorsAreThoseOfConstants};

/// Of integers of its kind an operator gives in a run what it gives of constants, and is undefined where that has no value.
#[tactic(auto, using(crate::proofs::Constants::operators_are_those_of_constants))]
pub fn operators_are_those_of_constants()
    ensures { OperatorsAreThoseOfConstants }
{}

/// At the entry of a function that behaviors are complete is tested first, and then that they are disjoint, each in the order of the text.
#[tactic(auto, using(crate::proofs::Order::complete_comes_first))]
pub fn complete_comes_first()
    ensures { CompleteComesFirst }
{}
