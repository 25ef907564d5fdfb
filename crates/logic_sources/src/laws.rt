// What is so of sources that are verified.
ghost use Rattle.logic_sources.specs.Laws.{VerifiedIsMet, VerifiedIsRegular};

/// What is verified is a plain text that the laws on goals are about.
pub fn verified_is_met()
    ensures { VerifiedIsMet }
{}

/// Its setting is one that a prover takes.
pub fn verified_is_regular()
    ensures { VerifiedIsRegular }
{}
