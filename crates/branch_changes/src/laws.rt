// Laws of the changes, whatever closes a branch: each is the contract of a function that does nothing.
ghost use Rattle.branch_changes.specs.Laws.{ChangesKeepModels, ChangesLeadToOne, ReplacingMemoriesKeepsMeaning};

use crate::rules::ChangeRules;
use qed_terms::TermStore;

/// A change leaves a branch that is true under some values another that is true under some, where what closes a branch leaves it none.
pub fn changes_keep_models<S: TermStore, R: ChangeRules<S>>()
    ensures { ChangesKeepModels R.closed }
{}

/// A branch is changed in one way.
pub fn changes_lead_to_one<S: TermStore, R: ChangeRules<S>>()
    ensures { ChangesLeadToOne R.closed }
{}

/// A formula or a term with a memory in the places of a name means what it means with the name at that memory.
pub fn replacing_memories_keeps_meaning()
    ensures { ReplacingMemoriesKeepsMeaning }
{}
