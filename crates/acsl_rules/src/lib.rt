//! Floor 3, program: what the operators of terms in annotations make of typed operands.
#![tactic(auto)]

mod chains;
mod choices;
mod comparisons;
mod contexts;
mod fields;
mod laws;
mod makers;
mod objects;
mod operators;
mod sorts;
mod sums;
mod values;

pub use chains::chain;
pub use choices::conditional;
pub use contexts::{cast, labelled, passed};
pub use fields::field;
pub use laws::terms_fit;
pub use makers::{leaf, one, three, two};
pub use objects::{behind, elements, indexed, pointed};
pub use operators::{binary, unary};
pub use sorts::content;
pub use values::{truth, valued};
