//! Floor 5, goals: what programs do: states, runs as spelled and as core programs, what annotations mean, and checks. Definitions and laws.
//! Floor 5, goals: what a program of C with annotations does, in so many turns. Definitions and laws.
//! Floor 5, goals: core programs, and what they do in so many turns. Definitions alone.
//! Floor 5, goals: the checks of expressions of core programs, in the order of evaluation.
//! Floor 5, goals: the core program of a program as spelled, which has the same outcome.
//! Floor 5, goals: core programs with their checks, and that these change no outcome.
#![tactic(auto)]

mod check_laws;
mod checked_laws;
mod laws;
mod normal_laws;
mod truth_laws;

pub use check_laws::{checked, none_is_idle};
pub use checked_laws::{checks_in_order, checks_keep};
pub use laws::{complete_comes_first, operators_are_those_of_constants};
pub use normal_laws::{all_core, same_outcome};
pub use truth_laws::{changes_add, ranges_say, recursion_unfolds, same_meaning};
