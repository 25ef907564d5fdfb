//! Floor 6, prover: the formulas that a round of instances adds to a branch. Definitions and laws.
#![tactic(auto)]

mod laws;

pub use laws::{
    calls_are_unfolded, choices_are_arms, conversions_wrap, frames_keep_loads, layouts_answer,
    loads_are_in_range, loads_of_stores_are_valid, made_blocks_answer, offsets_are_ordered,
    operators_are_bounded, quotients_are_bounded, reads_have_places, round_follows,
    round_leads_to_one, unequal_is_ordered, writes_are_reads,
};
