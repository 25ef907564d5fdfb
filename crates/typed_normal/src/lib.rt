//! Floor 5, goals: spelled programs whose expressions have the kinds that are wanted, whose core programs have them too. Laws.
#![tactic(auto)]

mod laws;

pub use laws::{
    kinded_programs_are_typed, kinded_programs_fit, temporaries_are_set_first, typed_programs_fit,
};
