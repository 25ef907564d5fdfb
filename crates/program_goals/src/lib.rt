//! Floor 5, goals: the goals of whole programs over plain integers, and what they say of runs. Laws.
#![tactic(auto)]

mod laws;

pub use laws::{
    example_goals, falsified_goals_fail, goals_are_exact, goals_are_exact_by_check,
    goals_are_exact_for_runs, goals_are_in_order, goals_are_well_formed, goals_have_given_names,
    segments_are_words, stops_have_goals, valid_goals_run_well, valid_goals_suffice,
};
