//! Floor 6, prover: the variables that an equality gives, with their terms, in any store.
#![tactic(auto)]

mod forms;
mod free;
mod givens;
mod heads;
mod made;
mod rests;

pub use forms::{IdForm, IdPart, written};
pub use free::is_free;
pub use givens::{given_at, memory_given};
pub use heads::may_stand_for;
pub use rests::rest_term;
