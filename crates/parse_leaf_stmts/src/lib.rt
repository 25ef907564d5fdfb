//! Floor 2, parsers: parts of statements, and statements that have none in them: read by the grammar, and put together.
#![tactic(auto)]

mod forms;
mod labels;
mod nodes;
mod parts;

pub use forms::{Form, form_of};
pub use labels::is_switch;
pub use nodes::{block_of, do_of, for_of, no_annot, switch_of, while_of};
pub use parts::{
    Around, Head, assertion_at, case_at, default_at, do_end_at, head_at, locals_at, loop_annot_at,
    optional_at, plain_at, test_at,
};
