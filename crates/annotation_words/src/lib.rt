//! Floor 5, goals: the formulas of annotations over the terms in the slots of a walk.
#![tactic(auto)]

mod binders;
mod calls;
mod cells;
mod encoding;
mod formulas;
mod heads;
mod laws;
mod parts;
mod readings;
mod reads;
mod slots;

pub use formulas::{claim_of, formula_of, number_of};
pub use laws::{annotations_are_closed, annotations_are_filled};
pub use readings::{Called, GlobalName, Locals, Named, Reading, Seen, SlotAt, kind_given};
pub use slots::Held;
