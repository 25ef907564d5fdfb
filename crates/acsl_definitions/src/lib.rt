//! Floor 3, program: the typed form of a definition in annotations, of a predicate or of a logic function, or the first fault in it.
#![tactic(auto)]

mod bodies;
mod definitions;
mod headers;
mod types;

pub use definitions::typed_definition;
