// What follows from the definitions.
ghost use Rattle.walk_frames.specs.Laws.{FormulasAreClosed};

/// What a walk over a function asks for and knows has no names that quantifiers bind, but for their own.
pub fn formulas_are_closed()
    ensures { FormulasAreClosed }
{}
