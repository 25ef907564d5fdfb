// What is so of declarations behind typed statements.
ghost use Rattle.typed_layouts.specs.Laid.{StatementsStayLaid, BodiesStayLaid};

/// Behind a typed statement all that is declared has a layout, where it had one before it.
pub fn statements_stay_laid()
    ensures { StatementsStayLaid }
{}

/// And so behind statements one after the other.
pub fn bodies_stay_laid()
    ensures { BodiesStayLaid }
{}
