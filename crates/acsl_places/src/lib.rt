//! Floor 3, program: sets of addresses in annotations: entries of `assigns`, and what `\valid`, `\valid_read` and `\separated` speak of.
#![tactic(auto)]

mod aims;
mod entries;
mod ranges;
mod spans;

pub use aims::{Aim, typed_separated, typed_valid};
pub use entries::typed_entry;
