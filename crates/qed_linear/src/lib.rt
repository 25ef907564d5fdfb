//! Floor 4, logic: linear forms of terms.
#![tactic(auto)]

mod calls;
mod divide;
mod forms;
mod keys;
mod ordered;
mod products;
mod sums;
mod terms;
mod totals;
mod wide;

pub use calls::{add, of_lin, scale, to_lin};
pub use divide::{common_divisor, divide_exact, divides, make_lead_positive, tighten};
pub use forms::{LinEnd, LinForm, LinPart, is_integer, number};
pub use sums::{add_all, negate, scaled, subtract};
pub use terms::{form_of, into_term, op_form};
