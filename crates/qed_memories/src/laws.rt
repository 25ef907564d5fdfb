// Laws of the rules, over plain trees.
ghost use Rattle.qed_memories.specs.Alike.{HeadsKeepAlike, SettingsRespectAlike};
ghost use Rattle.qed_memories.specs.Laws.{MemoriesKeepMeaning, PassesAreSteps};

/// A rule keeps the meaning.
pub fn memories_keep_meaning()
    ensures { MemoriesKeepMeaning }
{}

/// The passes take the rules' steps.
pub fn passes_are_steps()
    ensures { PassesAreSteps }
{}

/// A head over alike kids means alike, in a world whose logic functions don't tell alike values apart.
pub fn heads_keep_alike()
    ensures { HeadsKeepAlike }
{}

/// The logic functions of a setting don't.
pub fn settings_respect_alike()
    ensures { SettingsRespectAlike }
{}
