// What is so of annotations over plain integers.
ghost use Rattle.plain_annotations.specs.Arguments.{OperandsAreOpen};
ghost use Rattle.plain_annotations.specs.Callees.{CalleesFit};
ghost use Rattle.plain_annotations.specs.Claims.{ClaimsFit, PromisesFit};
ghost use Rattle.plain_annotations.specs.Clauses.{ContractsFit, LoopsFit};
ghost use Rattle.plain_annotations.specs.Laws.{AnnotationsFit};
ghost use Rattle.plain_annotations.specs.Settings.{PlainSettingsFit, SettingsFit};

/// Annotations that pass the tests have closed formulas and terms, which mean them.
pub fn annotations_fit()
    ensures { AnnotationsFit }
{}

/// Those in the body of a function are what its word asks for, as predicates and as numbers.
pub fn claims_fit()
    ensures { ClaimsFit }
{}

/// What a function promises is what its word asks for.
pub fn promises_fit()
    ensures { PromisesFit }
{}

/// So is a whole contract.
pub fn contracts_fit()
    ensures { ContractsFit }
{}

/// So are the annotations of a loop.
pub fn loops_fit()
    ensures { LoopsFit }
{}

/// In the setting of a file, its texts are what annotations ask for.
pub fn settings_fit()
    ensures { SettingsFit }
{}

/// What a function's own contract passes has formulas and terms for its callers too.
pub fn callees_fit()
    ensures { CalleesFit }
{}

/// Terms of operands that are closed may stand for parameters.
pub fn operands_are_open()
    ensures { OperandsAreOpen }
{}

/// Where no logic function calls itself, the setting of a file is regular, and its texts fit.
pub fn plain_settings_fit()
    ensures { PlainSettingsFit }
{}
