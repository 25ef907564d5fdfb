//! Floor 5, goals: each goal of a function with memory is valid exactly where no segment run of it goes wrong at its check. Laws.
#![tactic(auto)]

mod laws;
mod others;

pub use laws::{
    falsified_goals_fail, goals_are_exact, goals_are_exact_by_check, goals_are_in_order,
    stops_have_goals, valid_goals_suffice,
};
pub use others::OtherStatements;
