// What follows from the definitions.
ghost use Rattle.acsl_encode.specs.Binders.{BindersDiffer};
ghost use Rattle.acsl_encode.specs.Examples.{ExamplesHold};
ghost use Rattle.acsl_encode.specs.Laws.{FormulasMean};
ghost use Rattle.acsl_encode.specs.Regular.{SettingStands};
ghost use Rattle.acsl_encode.specs.Told.{ReadsAreGiven};
ghost use Rattle.acsl_encode.specs.WellFormed.{FormulasFit};

/// Each binder of a clause has a name of its own.
pub fn binders_differ()
    ensures { BindersDiffer }
{}

/// Formulas are true exactly where their annotations hold, and terms mean what theirs do.
pub fn formulas_mean()
    ensures { FormulasMean }
{}

/// Formulas and terms are well formed where those of the reading are.
pub fn formulas_fit()
    ensures { FormulasFit }
{}

/// Logic functions of a setting have the values that their definitions give.
pub fn setting_stands()
    ensures { SettingStands }
{}

/// What a number of annotations become, word for word.
pub fn examples_hold()
    ensures { ExamplesHold }
{}

/// A logic function is given the memories that its body reads.
pub fn reads_are_given()
    ensures { ReadsAreGiven }
{}
