//! Floor 5, goals: what walks of verified sources pass on are their goals. A law.
#![tactic(auto)]

mod laws;

pub use laws::walks_are_of_sources;
