//! Floor 5, goals: what stands in an expression: effects, what statements come of, what may be undefined.
#![tactic(auto)]

mod checks;
mod effects;
mod forms;
mod needed;
mod operations;

pub use checks::{has_checks, have_checks};
pub use effects::{has_effect, have_effect};
pub use forms::{is_settled, is_temp};
pub use needed::{need, need_from, needs};
pub use operations::{
    is_order, is_pointed, is_signed_at, may_be_minus_one, may_be_zero, may_fail, plain_value,
    second_constant,
};
