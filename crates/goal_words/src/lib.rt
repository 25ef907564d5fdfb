//! Floor 4, logic: the words of a goal's text, written and read: single spaces, names, numbers, kinds.
#![tactic(auto)]

mod bytes;
mod kinds;
mod laws;
mod names;
mod numbers;
mod write;

pub use bytes::{after_byte, is_end, part, word};
pub use kinds::{cell_of, cell_part, cell_text, cell_word, kind_of, kind_part, kind_text, row_of};
pub use laws::{
    count_has_one_text, kind_has_one_word, number_has_one_text, part_is_space_and_word,
};
pub use names::{is_name, name_part, name_sort};
pub use numbers::{count, count_part, flag_part, flag_text, number};
pub use write::{put, put_count, put_int, put_part};
