//! Floor 5, goals: what typing makes of a text is in order for programs with blocks and pointers. Laws.
#![tactic(auto)]

mod laws;

pub use laws::{
    bodies_of_texts_are_typed, kinded_texts_are_kinded, kinded_texts_fit, scopes_of_texts_stand,
    values_of_texts_stand,
};
