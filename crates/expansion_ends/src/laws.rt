// Laws of the expansion of goals, by whatever rules: each is the contract of a function that does nothing.
ghost use Rattle.expansion_ends.specs.Laws.{ClosedIsValid, ComesToOneEnd, EndsAreVerdicts};

use branches::BranchRules;
use qed_terms::TermStore;

/// A goal whose expansion closes is valid, where what closes a branch leaves it no model, and what a round adds follows from it.
pub fn closed_is_valid<S: TermStore, R: BranchRules<S>>()
    ensures { ClosedIsValid R.closed R.round }
{}

/// An expansion of a goal comes to one end.
pub fn comes_to_one_end<S: TermStore, R: BranchRules<S>>()
    ensures { ComesToOneEnd R.closed R.round }
{}

/// The verdict of a goal's expansion is one that may be given of the goal.
pub fn ends_are_verdicts<S: TermStore, R: BranchRules<S>>()
    ensures { EndsAreVerdicts R.closed R.round }
{}
