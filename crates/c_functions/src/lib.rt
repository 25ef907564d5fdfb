//! Floor 3, program: declarations of functions, with their bodies, or the first fault in them.
#![tactic(auto)]

mod functions;
mod headers;
mod params;

pub use functions::{Functions, count, declare_function};
