// Laws of the definitions, each the contract of a function that does nothing.
ghost use Rattle.memory_steps.specs.Examples.{ExampleGoals};
ghost use Rattle.memory_steps.specs.Bracketed.{EpochsCompose};
ghost use Rattle.memory_steps.specs.Laws.{
  BracketedStepsMeet,
  FailuresHaveGoals,
  FalsifiedDecode,
  GoalsAreExact,
  GoalsAreNumbered,
  GoalsAreTheChecks,
};
ghost use Rattle.memory_steps.specs.Readings.{
  AsksRead,
  ChangesRead,
  EndingsRead,
  GrowthsRead,
  KnowsRead,
  LastAsksRead,
  MakingsRead,
  RemembersRead,
  ScopesRead,
  SequencesRead,
  SetsRead,
};
ghost use Rattle.memory_steps.specs.Texts.{GoalsAreWellFormed, GoalsHaveGivenNames};
ghost use Rattle.memory_steps.specs.Words.{BracketsEnd, ExitsEnd, WordsAreBracketed};

/// There is one goal for each check that is walked, in the same order.
#[tactic(auto, using(crate::proofs::Exact::goals_are_the_checks))]
pub fn goals_are_the_checks()
    ensures { GoalsAreTheChecks }
{}

/// The goals are numbered from 0.
#[tactic(auto, using(crate::proofs::Exact::goals_are_numbered))]
pub fn goals_are_numbered()
    ensures { GoalsAreNumbered }
{}

/// A goal is valid exactly where no run fails at its check.
#[tactic(auto, using(crate::proofs::Exact::goals_are_exact))]
pub fn goals_are_exact()
    ensures { GoalsAreExact }
{}

/// Values that falsify a goal are a state from which a run fails at its check.
#[tactic(auto, using(crate::proofs::Exact::falsified_decode))]
pub fn falsified_decode()
    ensures { FalsifiedDecode }
{}

/// A run that fails has the goal of its check, and values that falsify this one.
#[tactic(auto, using(crate::proofs::Exact::failures_have_goals))]
pub fn failures_have_goals()
    ensures { FailuresHaveGoals }
{}

/// All worlds of a bracketed step that meet can be joined.
#[tactic(auto, using(crate::proofs::Bracketed::bracketed_steps_meet))]
pub fn bracketed_steps_meet()
    ensures { BracketedStepsMeet }
{}

/// How words are bracketed.
#[tactic(auto, using(crate::proofs::Bracketed::epochs_compose))]
pub fn epochs_compose()
    ensures { EpochsCompose }
{}

/// Exits end what was made since their block began.
pub fn exits_end()
    ensures { ExitsEnd }
{}

/// What stands in a bracket is in an epoch of its own.
#[tactic(auto, using(crate::proofs::Words::brackets_end))]
pub fn brackets_end()
    ensures { BracketsEnd }
{}

/// All words are bracketed.
#[tactic(auto, using(crate::proofs::Words::words_are_bracketed))]
pub fn words_are_bracketed()
    ensures { WordsAreBracketed }
{}

/// The first step ends the run, or the second one goes on.
#[tactic(auto, using(crate::proofs::Readings::sequences_read))]
pub fn sequences_read()
    ensures { SequencesRead }
{}

/// A check is false, the first one, or all are true and what comes behind is run.
#[tactic(auto, using(crate::proofs::Readings::asks_read))]
pub fn asks_read()
    ensures { AsksRead }
{}

/// What is known is so, and what comes behind is run.
#[tactic(auto, using(crate::proofs::Readings::knows_read))]
pub fn knows_read()
    ensures { KnowsRead }
{}

/// What comes behind is run with the slot set.
#[tactic(auto, using(crate::proofs::Readings::sets_read))]
pub fn sets_read()
    ensures { SetsRead }
{}

/// What comes behind is run from a state to which the change may lead.
#[tactic(auto, using(crate::proofs::Readings::changes_read))]
pub fn changes_read()
    ensures { ChangesRead }
{}

/// A step is run with the present state remembered.
#[tactic(auto, using(crate::proofs::Readings::remembers_read))]
pub fn remembers_read()
    ensures { RemembersRead }
{}

/// However a scope ends, its slots are put back.
#[tactic(auto, using(crate::proofs::Readings::scopes_read))]
pub fn scopes_read()
    ensures { ScopesRead }
{}

/// A run whose last checks are asked ends only where one is false.
#[tactic(auto, using(crate::proofs::Readings::last_asks_read))]
pub fn last_asks_read()
    ensures { LastAsksRead }
{}

/// What comes behind is run with any number of ended blocks added.
#[tactic(auto, using(crate::proofs::Readings::growths_read))]
pub fn growths_read()
    ensures { GrowthsRead }
{}

/// What comes behind is run with one more block.
#[tactic(auto, using(crate::proofs::Readings::makings_read))]
pub fn makings_read()
    ensures { MakingsRead }
{}

/// What comes behind is run with the newer blocks ended.
#[tactic(auto, using(crate::proofs::Readings::endings_read))]
pub fn endings_read()
    ensures { EndingsRead }
{}

/// The goals of small words are those worked out by hand.
pub fn example_goals()
    ensures { ExampleGoals }
{}

/// Over forms that are well formed goals are.
#[tactic(auto, using(crate::proofs::Formed::goals_are_well_formed))]
pub fn goals_are_well_formed()
    ensures { GoalsAreWellFormed }
{}

/// All free names of a goal were given out.
#[tactic(auto, using(crate::proofs::Given::goals_have_given_names))]
pub fn goals_have_given_names()
    ensures { GoalsHaveGivenNames }
{}
