// What is so of formulas over terms that are of their sorts.
ghost use Rattle.leaf_annotations.specs.Laws.{FormulasAreClosed, SortedFormulasMean, TermsMean};

/// The terms of an annotation mean what the annotation does.
pub fn terms_mean()
    ensures { TermsMean }
{}

/// Formulas are true exactly where their annotations hold.
pub fn sorted_formulas_mean()
    ensures { SortedFormulasMean }
{}

/// Formulas and terms are closed where those of the reading are.
pub fn formulas_are_closed()
    ensures { FormulasAreClosed }
{}
