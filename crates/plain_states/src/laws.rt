// What is so of slots.
ghost use Rattle.plain_states.specs.Laws.{ChangesArePuts};

/// What a run changes of a world that slots tell is a change of slots.
pub fn changes_are_puts()
    ensures { ChangesArePuts }
{}
