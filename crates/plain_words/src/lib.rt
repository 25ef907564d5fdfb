//! Floor 5, goals: statements of plain texts, which have words. Laws.
#![tactic(auto)]

mod laws;

pub use laws::plain_programs_stand;
