//! Floor 5, goals: terms of expressions and formulas of their checks in code, over the terms in the slots of programs with memory.
#![tactic(auto)]

mod accesses;
mod drafts;
mod integers;
mod items;
mod known;
mod laws;
mod leaves;
mod objects;
mod operations;
mod pointers;
mod ranges;
mod readings;
mod slots;
mod terms;
mod ways;
mod words;

pub use items::Item;
pub use known::known_test;
pub use laws::{values_are_closed, values_are_filled};
pub use readings::Reading;
pub use slots::{Place, Sizes, read_integer, read_memory, read_table, sizes_of, slot_of};
pub use terms::ValueTerm;
pub use ways::{address_of, way_of};
pub use words::{word_of, words_of};
