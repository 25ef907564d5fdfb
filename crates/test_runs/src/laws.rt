// What the small programs come to.
ghost use Rattle.test_runs.specs.Clauses.{OnClauses};
ghost use Rattle.test_runs.specs.Kinds.{OnKinds};
ghost use Rattle.test_runs.specs.Laws.{RunsAsAnnotated, RunsAsC};
ghost use Rattle.test_runs.specs.Orders.{OnOrders};
ghost use Rattle.test_runs.specs.Pointers.{OnPointers};

/// Runs of small programs have the outcomes that C11 gives them.
#[tactic(auto, using(crate::proofs::Plain::runs_as_c))]
pub fn runs_as_c()
    ensures { RunsAsC }
{}

/// Runs of small programs with annotations have the outcomes that ACSL gives them.
#[tactic(auto, using(crate::proofs::Claimed::runs_as_annotated))]
pub fn runs_as_annotated()
    ensures { RunsAsAnnotated }
{}

/// So have programs on integers of several kinds.
#[tactic(auto, using(crate::proofs::KindRuns::on_kinds))]
pub fn runs_on_kinds()
    ensures { OnKinds }
{}

/// So have programs with pointers, structs and scopes.
#[tactic(auto, using(crate::proofs::PointerRuns::on_pointers))]
pub fn runs_on_pointers()
    ensures { OnPointers }
{}

/// So have programs in which something is done within an expression or in passes of a loop.
#[tactic(auto, using(crate::proofs::OrderRuns::on_orders))]
pub fn runs_in_order()
    ensures { OnOrders }
{}

/// Programs with sets, behaviors, labels, quantifiers and logic functions have the outcomes that ACSL gives them.
#[tactic(auto, using(crate::proofs::ClauseRuns::on_clauses))]
pub fn runs_by_clauses()
    ensures { OnClauses }
{}
