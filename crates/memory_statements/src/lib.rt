//! Floor 5, goals: what the renewal of memories does to machine memories, behind blocks that are made or end, and where cells change. Laws.
//! Floor 5, goals: stores to cells of programs with memory, and what formulas of sets mean. Laws.
//! Floor 5, goals: scopes of programs with memory: variables that are made, blocks that end, and what leaves. Laws.
//! Floor 5, goals: statements with memory run as their words do. Laws.
#![tactic(auto)]

mod others;
mod renewal_laws;
mod scope_laws;
mod statement_laws;
mod store_laws;

pub use others::OtherStatements;
pub use renewal_laws::{
    ended_is_renewed, made_is_renewed, renewals_change_memories, sets_are_renewed,
};
pub use scope_laws::{
    all_scopes_end, exits_run, nothing_ends, openings_run, places_are_remembered, scopes_end,
    scopes_run,
};
pub use statement_laws::statements_run;
pub use store_laws::{
    blocks_receive, cells_are_stored, cells_are_written, cells_inside, cells_receive, levels_read,
    regions_inside, starts_of_blocks_run, stores_to_cells_run, terms_are_closed, ways_are_asked,
};
