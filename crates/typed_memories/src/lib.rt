//! Floor 5, goals: memories by kind of cells, and what changes in them. Definitions and laws.
//! Floor 5, goals: what frames and tables of goals say of the changes of a state. Laws.
#![tactic(auto)]

mod change_laws;
mod laws;

pub use change_laws::{
    allocations_make_blocks, frames_are_changes, growing_ends_blocks,
    grown_tables_have_the_same_blocks, kinds_left_alone_are_read, made_blocks_hold_contents,
    newer_blocks_lack_kinds, parameters_hold_arguments, regions_are_sets, standing_blocks_stay,
};
pub use laws::{
    clean_has_memories, decoded_states_are_shaped, formed_decode_well,
    formed_is_clean_and_in_range, formed_is_of_contents, frames_say, loads_agree, maps_say,
    states_have_memories, stores_agree, well_formed_says, well_formed_states_are_formed,
};
