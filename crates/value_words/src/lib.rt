//! Floor 5, goals: terms of expressions and formulas of their checks in code, over the terms in the slots of a walk.
#![tactic(auto)]

mod accesses;
mod drafts;
mod integers;
mod items;
mod known;
mod laws;
mod objects;
mod operations;
mod pointers;
mod ranges;
mod slots;
mod terms;
mod words;

pub use items::Item;
pub use known::known_test;
pub use laws::{values_are_closed, values_are_filled};
pub use slots::{
    Sizes, answer_slot, flag_slot, local_flag, local_value, read_slot, result_slot, sizes_of,
    temp_slot, value_slot,
};
pub use terms::ValueTerm;
pub use words::{word_of, words_of};
