// Laws of what is put into slots, each the contract of a function that does nothing.
ghost use Rattle.memory_words.specs.PutLaws.{AskedRun, BehindDropped, BehindOneEnd, BranchesRun, ExpressionsEvaluate, GlobalsArePut, GlobalsAreSet, ItemsRun, LocalsArePut, LocalsAreSet, OperandsEvaluate, PlainsAreOpened, ResultsAreSet, SinglesAreRuns, SinglesRun, SlotsGoOn, TemporariesAreDropped, TemporariesArePut, TemporariesAreSet, ValuesAreAssigned, ValuesAreSet, WaysLead};

/// Slots go on standing for a world where they hold the same at each place that counts.
pub fn slots_go_on()
    ensures { SlotsGoOn }
{}

/// And where a temporary has a value in both.
pub fn temporaries_are_put()
    ensures { TemporariesArePut }
{}

/// And where a plain variable of the function does.
pub fn locals_are_put()
    ensures { LocalsArePut }
{}

/// And where a plain variable of the file does.
pub fn globals_are_put()
    ensures { GlobalsArePut }
{}

/// Words that set two places that aren't read have one end.
pub fn values_are_set()
    ensures { ValuesAreSet }
{}

/// So do those that set places which may be read.
pub fn values_are_assigned()
    ensures { ValuesAreAssigned }
{}

/// The word of a temporary that is set ends in slots that stand for the world where it is.
pub fn temporaries_are_set()
    ensures { TemporariesAreSet }
{}

/// So does that of a plain variable of the function.
pub fn locals_are_set()
    ensures { LocalsAreSet }
{}

/// And that of a plain variable of the file.
pub fn globals_are_set()
    ensures { GlobalsAreSet }
{}

/// What is returned stands in its places.
pub fn results_are_set()
    ensures { ResultsAreSet }
{}

/// A plain variable of the function gets into scope in the slots as in the world.
pub fn plains_are_opened()
    ensures { PlainsAreOpened }
{}

/// Temporaries that aren't used any more are put to 0.
pub fn temporaries_are_dropped()
    ensures { TemporariesAreDropped }
{}

/// Terms of expressions have their values in slots that stand for a world, and formulas say what their checks say.
pub fn expressions_evaluate()
    ensures { ExpressionsEvaluate }
{}

/// So do those of operands.
pub fn operands_evaluate()
    ensures { OperandsEvaluate }
{}

/// And those of ways to cells.
pub fn ways_lead()
    ensures { WaysLead }
{}

/// The word of items runs as checks are asked.
pub fn items_run()
    ensures { ItemsRun }
{}

/// Formulas that are asked at one place run as one test.
pub fn asked_run()
    ensures { AskedRun }
{}

/// What comes behind a word of one end.
pub fn behind_one_end()
    ensures { BehindOneEnd }
{}

/// Segment runs of single statements are what they do.
pub fn singles_are_runs()
    ensures { SinglesAreRuns }
{}

/// Statements that need no more run as their words do.
pub fn singles_run()
    ensures { SinglesRun }
{}

/// So do branches whose arms do.
pub fn branches_run()
    ensures { BranchesRun }
{}

/// And what comes behind temporaries that are dropped.
pub fn behind_dropped()
    ensures { BehindDropped }
{}
