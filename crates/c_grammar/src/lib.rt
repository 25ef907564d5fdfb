//! Floor 1, text: the grammar of C and of its annotations: which tokens spell which tree. Its code is what the parsers above it share: it reads single
//! tokens, knows which punctuators are which operators, puts an `if` together, and has the limits.
#![tactic(auto)]

mod choices;
mod fault;
mod limits;
mod operators;
mod tokens;
mod type_names;

pub use choices::if_of;
pub use fault::{Fault, Read};
pub use limits::{DEEPEST, MOST_FUNCTIONS, MOST_PARAMS, MOST_STMTS, MOST_WITHIN};
pub use operators::{LOOSEST, SHIFTS, binop_of, level_of, unop_of};
pub use tokens::{
    annot_close_at, annot_open_at, expect, first_line, is_type, keyword_at, name_at, new_name_at,
    punct_at, word_at,
};
pub use type_names::TypeNames;
