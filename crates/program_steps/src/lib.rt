//! Floor 5, goals: functions of core programs as words made of steps, and that their segment runs are the runs of these steps. Laws.
#![tactic(auto)]

mod laws;
mod others;

pub use laws::{
    entries_start, falsified_fail, forms_are_good, functions_are_good, functions_run,
    goals_suffice, starts_enter, statements_run, words_are_good, worlds_have_slots,
};
pub use others::OtherStatements;
