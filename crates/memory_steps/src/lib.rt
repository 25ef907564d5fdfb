//! Floor 5, goals: steps over numbers, memories and a table of blocks, their runs, their symbolic walk, and what the goals of the walk say of the runs. Laws.
#![tactic(auto)]

mod laws;

pub use laws::{
    asks_read, bracketed_steps_meet, brackets_end, changes_read, endings_read, epochs_compose,
    example_goals, exits_end, failures_have_goals, falsified_decode, goals_are_exact,
    goals_are_numbered, goals_are_the_checks, goals_are_well_formed, goals_have_given_names,
    growths_read, knows_read, last_asks_read, makings_read, remembers_read, scopes_read,
    sequences_read, sets_read, words_are_bracketed,
};
