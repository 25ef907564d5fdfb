//! Floor 6, prover: a `forall` at the terms for which an access or a call in its body becomes one of the branch.
#![tactic(auto)]

mod foralls;
mod forms;
mod instances;
mod nodes;
mod terms;

pub use foralls::{IdForall, quantified_at};
pub use forms::{Beside, Passes, may_pass, solved, taken_apart};
pub use instances::{instance_at, instance_by_access, instance_by_call, instance_by_forms};
pub use nodes::push_nodes_with;
pub use terms::{form_at, term_by, term_where};
