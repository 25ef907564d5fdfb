//! Floor 2, parsers: reads declarations: declarators, variables, parameters, fields and enumerators.
#![tactic(auto)]

mod declarators;
mod enums;
mod exact;
mod fields;
mod params;

pub use declarators::{declarator_at, variables_after, variables_at};
pub use enums::enumerators_at;
pub use exact::{
    declarator_is_exact, enumerators_are_exact, fields_are_exact, linkage_is_exact,
    params_are_exact, variables_after_are_exact, variables_are_exact,
};
pub use fields::fields_at;
pub use params::{linkage_at, params_at};
