// What is read is spelled so, and what is spelled is read, where the tokens behind it may follow.
ghost use Rattle.parse_decls.specs.Exactness.{DeclaratorIsExact, EnumeratorsAreExact, FieldsAreExact, LinkageIsExact};
ghost use Rattle.parse_decls.specs.Exactness.{ParamsAreExact, VariablesAfterAreExact, VariablesAreExact};

/// `declarator_at` reads exactly what is spelled.
pub fn declarator_is_exact()
    ensures { DeclaratorIsExact }
{}

/// `variables_after` reads exactly what is spelled.
pub fn variables_after_are_exact()
    ensures { VariablesAfterAreExact }
{}

/// `variables_at` reads exactly what is spelled.
pub fn variables_are_exact()
    ensures { VariablesAreExact }
{}

/// `params_at` reads exactly what is spelled.
pub fn params_are_exact()
    ensures { ParamsAreExact }
{}

/// `fields_at` reads exactly what is spelled.
pub fn fields_are_exact()
    ensures { FieldsAreExact }
{}

/// `enumerators_at` reads exactly what is spelled.
pub fn enumerators_are_exact()
    ensures { EnumeratorsAreExact }
{}

/// `linkage_at` goes past exactly what is spelled.
pub fn linkage_is_exact()
    ensures { LinkageIsExact }
{}
