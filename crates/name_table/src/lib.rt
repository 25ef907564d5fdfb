//! Floor 0, ground: tables of names with what each means, and scopes one within the other.
#![tactic(auto)]

mod laws;
mod scopes;
mod table;

pub use laws::{
    declarations_add, declarations_hide, meanings_are_declared, meanings_are_innermost,
    scopes_are_entered,
};
pub use scopes::Scopes;
pub use table::Table;
