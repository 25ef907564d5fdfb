//! Floor 3, program: typed annotations: one tree for terms, sets of addresses and predicates, and terms as operands.
#![tactic(auto)]

mod heads;
mod operands;
mod tree;

pub use heads::{BinderPlace, Content, Head, Label, Range};
pub use operands::{Operand, Sort, TermType};
pub use tree::Tree;
