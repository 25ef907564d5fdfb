//! Floor 6, prover: the loads and the accesses to cells of a branch, by the ids of a store.
#![tactic(auto)]

mod accesses;
mod asked;
mod loads;
mod names;

pub use accesses::{IdAccess, access_at, accesses_in};
pub use asked::{put_blocks, put_sides};
pub use loads::{IdLoad, load_at, loads_in, put_some};
pub use names::{kind_under, memory_kind, named_kind};
