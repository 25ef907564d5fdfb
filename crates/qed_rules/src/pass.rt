// What becomes of a node over kids in normal form.

use qed_terms::Formula;

/// The normal form, or a formula that has to be brought to normal form again.
#[derive(Drop)]
pub enum Pass {
    Done(Formula),
    Again(Formula),
}
