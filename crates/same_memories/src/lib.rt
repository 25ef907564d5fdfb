//! Floor 5, goals: memories that are one map as one list, which no term tells apart. Laws.
#![tactic(auto)]

mod laws;

pub use laws::{
    canonical_holds_the_same, canonical_is_canonical, memories_worked_by_hand,
    one_list_for_each_map, parameters_are_alike, same_is_one_list, settings_respect,
    terms_dont_tell,
};
