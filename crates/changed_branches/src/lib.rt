//! Floor 6, prover: the changes of a branch, made.
#![tactic(auto)]

mod closing;
mod disjuncts;
mod holding;
mod moves;
mod names;
mod new_names;
mod relations;
mod witness;

pub use closing::{Removal, first_removal};
pub use disjuncts::remove_disjunct;
pub use holding::drop_or;
pub use moves::{move_literal, take_apart};
pub use names::is_in_branch;
pub use new_names::{NewName, first_new};
pub use relations::witness_normals;
pub use witness::{Range, Witness, range_of, witness_term};
