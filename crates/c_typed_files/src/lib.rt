//! Floor 3, program: typed files are in order, as a law over the definition of typing.
#![tactic(auto)]

mod laws;

pub use laws::typed_files_are_in_order;
