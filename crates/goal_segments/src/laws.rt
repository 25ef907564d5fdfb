// What is so of segment runs.
ghost use Rattle.goal_segments.specs.Laws.{Modular, ModularAsSpelled};

/// Where no segment run of a function, and of those that it reaches, goes wrong, no run of it does, however often loops turn and however deep calls are.
pub fn modular()
    ensures { Modular }
{}

/// The same of programs as they are spelled.
pub fn modular_as_spelled()
    ensures { ModularAsSpelled }
{}
