//! Floor 5, goals: the word of a function with memory, where it starts, and goals that are worked out by hand.
//! Floor 5, goals: words of statements and of functions with memory are such that their goals are exact. Laws.
//! Floor 5, goals: functions with memory run as their words do. Laws.
//! Floor 5, goals: the slots in which the word of a function with memory starts are those of the worlds in which the function is entered. Laws.
#![tactic(auto)]

mod function_laws;
mod goal_laws;
mod good_laws;
mod others;
mod start_laws;

pub use function_laws::{functions_run, parameters_arrive};
pub use goal_laws::example_goals;
pub use good_laws::{
    calls_are_good, calls_stay, functions_are_bracketed, functions_are_good, loops_stay,
    words_are_good, words_stay,
};
pub use others::OtherStatements;
pub use start_laws::{entries_start, starts_enter};
