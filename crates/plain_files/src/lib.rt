//! Floor 5, goals: what typing makes of a text is in order for programs over plain integers. Laws.
#![tactic(auto)]

mod laws;

pub use laws::{
    bodies_of_texts_are_typed, bodies_of_texts_jump, bodies_of_texts_stand, plain_texts_are_plain,
    plain_texts_fit, spelled_programs_nest,
};
