//! Floor 2, parsers: reads the types of C: specifiers, pointers and names of types.
#![tactic(auto)]

mod exact;
mod kinds;
mod types;

pub use exact::{stars_are_exact, type_is_exact, type_name_is_exact};
pub use types::{consts_at, stars_at, starts_type, type_at, type_name_at};
