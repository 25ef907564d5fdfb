//! Floor 4, logic: the rules of the normal form, and the passes that apply them.
#![tactic(auto)]

mod build;
mod constants;
mod junctions;
mod negations;
mod pass;
mod quantifiers;
mod relations;
mod terms;
mod turns;

pub use junctions::normal_junction;
pub use pass::Pass;
pub use quantifiers::pass_quantifier;
pub use relations::pass_relation;
pub use terms::{normal_ite, normal_op};
pub use turns::{pass_equivalence, pass_implication, pass_not};
