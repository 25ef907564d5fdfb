//! Floor 5, goals: what a whole run changes, and what it promises. Laws.
#![tactic(auto)]

mod laws;

pub use laws::{
    core_runs_change_what_they_may, core_runs_keep_promises, runs_change_what_they_may,
    runs_keep_promises,
};
