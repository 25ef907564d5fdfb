//! Floor 2, parsers: reads contracts, annotations of loops, assertions and definitions: what is read is spelled so, and what is
//! spelled is read where what comes behind it may follow, unless memory runs out.
#![tactic(auto)]

mod annots;
mod behaviors;
mod clauses;
mod endings;
mod exact;
mod items;
mod logics;
mod part;
mod places;
mod words;

pub use annots::{assert_at, contract_at, loop_at};
pub use exact::{
    assert_is_exact, contract_is_exact, logic_is_exact, logics_are_exact, loop_is_exact,
};
pub use logics::{logic_at, logics_at};
pub use places::{parse_assert, parse_contract, parse_global, parse_loop};
