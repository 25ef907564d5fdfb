// What is read is spelled so, and what is spelled is read, where the tokens behind it may follow.
ghost use Rattle.parse_terms.specs.Exactness.{ChainTermIsExact, EntryIsExact, PointerIsExact, SomeTermsAreExact, TermIsExact};

/// `term_at` reads exactly what is spelled.
pub fn term_is_exact()
    ensures { TermIsExact }
{}

/// `chain_term_at` reads exactly what is spelled.
pub fn chain_term_is_exact()
    ensures { ChainTermIsExact }
{}

/// `some_terms_at` reads exactly what is spelled.
pub fn some_terms_are_exact()
    ensures { SomeTermsAreExact }
{}

/// `pointer_at` reads exactly what is spelled.
pub fn pointer_is_exact()
    ensures { PointerIsExact }
{}

/// `entry_at` reads exactly what is spelled.
pub fn entry_is_exact()
    ensures { EntryIsExact }
{}
