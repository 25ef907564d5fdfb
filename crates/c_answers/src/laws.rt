// What is so of answers, in other words than those of their definition.
ghost use Rattle.c_answers.specs.Answers.{FaultsComeInOrder};

/// Of several parts in order, the fault of the first part that has one is answered.
#[tactic(auto, using(crate::proofs::Order::faults_come_in_order))]
pub fn faults_come_in_order()
    ensures { FaultsComeInOrder }
{}
