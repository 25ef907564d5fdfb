//! Floor 5, goals: the goals of files over plain integers, and what they say of runs. Laws.
#![tactic(auto)]

mod laws;

pub use laws::{
    files_in_order_meet, files_without_recursion_meet, goals_of_texts_are_exact,
    goals_of_texts_are_texts, plain_texts_have_goals, plain_texts_stand, valid_files_run_well,
    valid_goals_of_texts_run_well,
};
