//! Floor 5, goals: the names of the binders of a file's annotations, as a table in memory.
#![tactic(auto)]

mod binders;
mod entries;
mod files;
mod keys;
mod known;
mod names;
mod notes;
mod same;
mod tables;

pub use files::table_of;
pub use tables::Table;
