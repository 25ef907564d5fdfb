// Whether two settings are one.
ghost use Rattle.std.specs.Prelude.{◌≡◌, ◌↔◌, IsTrue};

use qed_terms::{LogicFn, Setting, Term};
use wp_base::List;

fn are_same_terms(left: &List<Term>, right: &List<Term>) -> bool
    ensures { IsTrue result ↔ (left.now ≡ right.now) }
{
    if left.len() != right.len() {
        return false;
    }
    let (left, right) = (left.as_slice(), right.as_slice());
    for at in 0..left.len() {
        if !left[at].is_same(&right[at]) {
            return false;
        }
    }
    true
}

fn is_same_function(left: &LogicFn, right: &LogicFn) -> bool
    ensures { IsTrue result ↔ (left.now ≡ right.now) }
{
    left.name.bytes() == right.name.bytes()
        && left.number == right.number
        && left.cut == right.cut
        && are_same_terms(&left.params, &right.params)
        && left.base.is_same(&right.base)
        && left.step.is_same(&right.step)
}

/// Whether two settings are one.
pub fn is_same_setting(left: &Setting, right: &Setting) -> bool
    ensures { IsTrue result ↔ (left.now ≡ right.now) }
{
    if left.long_bits != right.long_bits || left.logic.len() != right.logic.len() {
        return false;
    }
    let (left, right) = (left.logic.as_slice(), right.logic.as_slice());
    for at in 0..left.len() {
        if !is_same_function(&left[at], &right[at]) {
            return false;
        }
    }
    true
}
