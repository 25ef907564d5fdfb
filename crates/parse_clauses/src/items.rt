// Clauses of contracts, behaviors and loops, and what they stand in (ACSL 2.3, 2.4.2, 2.5).
use c_syntax::{AssignsClause, Clause, Measure};

/// A clause of a contract, a behavior or a loop.
#[derive(Drop)]
pub enum Item {
    Requires(Clause),
    Ensures(Clause),
    Assumes(Clause),
    Invariant(Clause),
    Assigns(AssignsClause),
    LoopAssigns(AssignsClause),
    Decreases(Measure),
    Variant(Measure),
}

/// What clauses stand in.
#[derive(Clone, Copy)]
pub enum Part {
    Contract,
    Behavior,
    Loop,
}
