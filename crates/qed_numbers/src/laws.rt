// Laws of the rules, over plain trees.
ghost use Rattle.qed_numbers.specs.Laws.{LongKeepsMeaning, NumbersAnswer, NumbersKeepMeaning};

/// A rule keeps the meaning.
pub fn numbers_keep_meaning()
    ensures { NumbersKeepMeaning }
{}

/// A rule answers a number, a kid, or for a shift to the left a number times a kid.
pub fn numbers_answer()
    ensures { NumbersAnswer }
{}

/// A conversion to `long` keeps the meaning where `long` is as wide.
pub fn long_keeps_meaning()
    ensures { LongKeepsMeaning }
{}
