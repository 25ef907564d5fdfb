//! Floor 3, program: what names an object, and what changes it: addresses, elements, fields, assignments, increments and casts.
#![tactic(auto)]

mod casts;
mod changes;
mod elements;
mod objects;

pub use casts::cast;
pub use changes::{assigned, compound, stepped};
pub use elements::indexed;
pub use objects::{Field, address, dereferenced, dotted_struct, member_by, variable};
