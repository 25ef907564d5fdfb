// Laws of renewals, each the contract of a function that does nothing.
ghost use Rattle.memory_statements.specs.RenewalLaws.{EndedIsRenewed, MadeIsRenewed, RenewalsChangeMemories, SetsAreRenewed};

/// Each good memory that is framed so is come to, and each run comes to such a one.
pub fn renewals_change_memories()
    ensures { RenewalsChangeMemories }
{}

/// Where the same blocks live: cells in the sets change.
pub fn sets_are_renewed()
    ensures { SetsAreRenewed }
{}

/// Behind the step that makes a block: it is made, with any contents.
pub fn made_is_renewed()
    ensures { MadeIsRenewed }
{}

/// Behind the step that ends blocks: they have ended, in the one memory.
pub fn ended_is_renewed()
    ensures { EndedIsRenewed }
{}
