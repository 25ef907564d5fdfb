// Laws of the definitions, each the contract of a function that does nothing.
ghost use Rattle.branch_links.specs.Laws.{RefutedIsFalse, RefutedByClasses};

/// Where the literals of a branch are true, no links of theirs are a negative chain or a short sum.
pub fn links_refute()
    ensures { RefutedIsFalse }
{}

/// By whichever classes, links that stand for those of a branch are refuted exactly where the branch is.
pub fn classes_refute()
    ensures { RefutedByClasses }
{}
