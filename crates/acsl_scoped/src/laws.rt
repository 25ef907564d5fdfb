// What is so of the variables in typed annotations.
ghost use Rattle.acsl_scoped.specs.Laws.{LoopsAreScoped};

/// Of the function's own variables the sets of a typed loop name those that are in scope where it stands.
pub fn loops_are_scoped()
    ensures { LoopsAreScoped }
{}
