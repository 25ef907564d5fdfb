// Laws, each the contract of a function that does nothing.
ghost use Rattle.qed_ids.specs.Laws.{FormulasAreTrees};

/// Two formulas with one tree are one formula, so what is read back from a store is what was put into it.
pub fn formulas_are_trees()
    ensures { FormulasAreTrees }
{}
