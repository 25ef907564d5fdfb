//! Floor 5, goals: the goals of whole programs with memory, and what they say of runs. Laws.
#![tactic(auto)]

mod laws;

pub use laws::{
    falsified_goals_fail, goals_are_exact, goals_are_exact_by_check, goals_are_in_order,
    segments_are_words, stops_are_exact, stops_have_goals, valid_goals_run_well,
    valid_goals_suffice,
};
