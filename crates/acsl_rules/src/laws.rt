// What is so of typed terms, in other words than those of their definitions.
ghost use Rattle.acsl_rules.specs.Laws.{TermsFit};

/// Where the trees of operands are of their sorts, so is the tree of what is made of them.
pub fn terms_fit()
    ensures { TermsFit }
{}
