// Copies of tokens, and of types with the expressions in them. Each equals its source.

mod exprs;
pub(crate) mod parts;
mod tokens;
mod types;
