//! Floor 3, program: the kinds of integers in both data models, conversions between them, and the cells of structs.
#![tactic(auto)]

mod arithmetic;
mod bitwise;
mod conversions;
mod laws;
mod layouts;
mod models;
mod numbers;
mod ranges;
mod tests;

pub use arithmetic::{difference, held, holds, negated, product, quotient, remainder, sum};
pub use bitwise::{and_bits, bits, complement, left_shift, or_bits, right_shift, xor_bits};
pub use conversions::{common, difference_kind, promote, size_kind};
pub use laws::{
    common_is_common, conversions_keep, operators_act_on_bits, promotion_keeps, quotients_divide,
    results_are_exact, results_are_of_kind, shifts_round_down, structs_are_in_order,
};
pub use layouts::{MOST_CELLS, StructLayout, cells_of, field_offset};
pub use models::{Machdep, Range};
pub use numbers::convert;
pub use ranges::range;
pub use tests::{at_most, equal, less, not_equal, truth};
