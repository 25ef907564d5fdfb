// A law of the definitions, the contract of a function that does nothing.
ghost use Rattle.congruence.specs.Closed.{StayClosed};

/// Classes stay closed where nodes come behind those of the table.
pub fn classes_stay()
    ensures { StayClosed }
{}
