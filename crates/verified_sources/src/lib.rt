//! Floor 5, goals: whether what is read of a text is verified, by what is made of it, with logic functions that call themselves.
#![tactic(auto)]

mod items;
mod laws;
mod tests;

pub use items::item_at;
pub use laws::tests_are_of_sources;
pub use tests::verified_order;
