// What segment runs say of all runs.
ghost use Rattle.typed_modular.specs.Examples.{OthersLieInGaps};
ghost use Rattle.typed_modular.specs.Laws.{Modular, ModularAsSpelled, RegionsAreSolid, SmallSetsFit};

/// Where no segment run of a function, and of those that it reaches, goes wrong, no run of it does.
pub fn modular()
    ensures { Modular }
{}

/// The same of a program as it is spelled.
pub fn modular_as_spelled()
    ensures { ModularAsSpelled }
{}

/// Objects, and elements that are as long as their cells, have no gaps.
pub fn regions_are_solid()
    ensures { RegionsAreSolid }
{}

/// The sets of the small program of `typed_runs` fit.
pub fn small_sets_fit()
    ensures { SmallSetsFit }
{}

/// Members of structs count as inside of others, in whose gaps they lie: why regions of sets have none.
pub fn others_lie_in_gaps()
    ensures { OthersLieInGaps }
{}
