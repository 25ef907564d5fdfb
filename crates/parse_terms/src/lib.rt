//! Floor 2, parsers: reads the terms of annotations: what is read is spelled so, and what is
//! spelled is read where what comes behind it may follow, unless memory runs out.
#![tactic(auto)]

mod chains;
mod entries;
mod exact;
mod nodes;
mod operands;
mod past;
mod place;
mod terms;
mod tokens;
mod wholes;

pub use chains::{begins_chain, continues};
pub use exact::{
    chain_term_is_exact, entry_is_exact, pointer_is_exact, some_terms_are_exact, term_is_exact,
};
pub use past::past_at;
pub use terms::{chain_term_at, entry_at, pointer_at, some_terms_at, term_at};
