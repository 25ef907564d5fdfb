//! Floor 5, goals: what a walk over a function has at hand: where a statement stands, values and annotations over its slots, sets of variables, and writes.
#![tactic(auto)]

mod asks;
mod claims;
mod clauses;
mod drops;
mod frames;
mod items;
mod laws;
mod places;
mod readings;
mod regions;
mod slots;
mod stores;

pub use asks::{Asked, ask_all, ask_each, know_all};
pub use claims::{assumed_at, claim_at, number_at, walk_claim};
pub use clauses::{as_one_unless, claim_under, write_formulas};
pub use drops::{drop_all, drop_unused};
pub use frames::{Force, Frame, Point, Texts, next_level};
pub use items::{operand_number, walk_items, walk_value, walk_values};
pub use laws::formulas_are_closed;
pub use places::{Broken, broken_place, kept_place, undefined_place};
pub use readings::{Labels, all_of, assumed_in, body_labels, claim_in, number_in, slots_at};
pub use regions::{has_variable, lacks, region_variable};
pub use slots::{set_to, sizes_in};
pub use stores::put_to;
