//! Floor 4, logic: terms and formulas, the trees that they stand for, and what these mean.
#![tactic(auto)]

mod build;
mod compare;
mod copies;
mod fresh;
mod head;
mod heads;
mod intern;
mod keys;
mod laws;
mod node;
mod setting;
mod store;
mod term;
mod tree_store;
mod verdict;

pub use copies::{copy_formulas, copy_terms};
pub use fresh::Fresh;
pub use head::{FormOp, Head, Shape, Sort, TermOp};
pub use intern::{intern_formula, intern_term};
pub use laws::{
    division_truncates, fresh_names_are_new, fresh_names_differ, heads_are_exact,
    meaning_of_free_names, order_is_total,
};
pub use node::Node;
pub use setting::{LogicFn, Setting};
pub use store::TermStore;
pub use term::{Formula, Goal, Term};
pub use tree_store::TreeStore;
pub use verdict::{Branch, IdBranch, Verdict};
