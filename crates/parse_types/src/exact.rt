// What is read is spelled so, and what is spelled is read, where the tokens behind it may follow.
ghost use Rattle.parse_types.specs.Exactness.{StarsAreExact, TypeIsExact, TypeNameIsExact};

/// `type_at` reads exactly what is spelled.
pub fn type_is_exact()
    ensures { TypeIsExact }
{}

/// `stars_at` reads exactly what is spelled.
pub fn stars_are_exact()
    ensures { StarsAreExact }
{}

/// `type_name_at` reads exactly what is spelled.
pub fn type_name_is_exact()
    ensures { TypeNameIsExact }
{}
