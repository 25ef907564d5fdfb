//! Floor 6, prover: terms put in the places of variables, over any store of terms.
#![tactic(auto)]

mod clear;
mod free;
mod heads;
mod put;
mod rules;

pub use clear::may_put;
pub use free::is_free;
pub use heads::binds;
pub use put::put_in;
pub use rules::{StoredRules, stored_rules};
