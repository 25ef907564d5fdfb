//! Floor 8, tests: what small programs come to by the machine of `c_runs`, as worked out by hand from the standard.
#![tactic(auto)]

mod laws;

pub use laws::{
    runs_as_annotated, runs_as_c, runs_by_clauses, runs_in_order, runs_on_kinds, runs_on_pointers,
};
