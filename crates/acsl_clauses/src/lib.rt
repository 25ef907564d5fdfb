//! Floor 3, program: the clauses of contracts and loops, typed in the order of the text, and assertions.
#![tactic(auto)]

mod claims;
mod clauses;
mod items;
mod merging;
mod named;
mod typed;

pub use claims::integer_typed;
pub use clauses::{typed_assertion, typed_contract, typed_loop};
pub use items::{Group, Item, Role, contract_items};
pub use typed::{Said, TypedClause};
