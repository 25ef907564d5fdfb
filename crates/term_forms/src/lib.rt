//! Floor 6, prover: forms of terms as they are written, and the rests of equalities, by places.
#![tactic(auto)]

mod forms;
mod heads;
mod made;
mod rests;

pub use forms::{Form, node_at, number_at, written};
pub use heads::{is_binder, is_integer, is_sum, number_in};
pub use made::form_place;
pub use rests::rest_form;
