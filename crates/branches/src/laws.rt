// Laws of the expansion, by whatever rules: each is the contract of a function that does nothing.
ghost use Rattle.std.specs.Prelude.{Bool};
ghost use Rattle.qed_terms.specs.Setting.{Setting};
ghost use Rattle.branches.specs.Laws.{OneEndBy, SoundBy};

use crate::rules::BranchRules;
use qed_terms::TermStore;

/// An expansion comes to one end at most and passes over the same branches, where a change and a round lead to one thing each.
pub fn expansion_has_one_end<S: TermStore, R: BranchRules<S>>()
    ensures { (setting : Setting) (passes : Bool) → OneEndBy passes R.closed (R.change setting) (R.round setting) }
{}

/// Where each leaf is closed or passed over, and the formula is true under some values, a branch that was passed over is true under some:
/// so a formula whose leaves are all closed is false under all values. This asks that what closes a branch leaves it no values, that a
/// change leaves it some, and that what a round adds follows.
pub fn expansion_is_sound<S: TermStore, R: BranchRules<S>>()
    ensures { (setting : Setting) (passes : Bool) → SoundBy passes R.closed (R.change setting) (R.round setting) }
{}
