// What the tests say.
ghost use Rattle.plain_trees.specs.Laws.{EachIsAnnotated, NothingIsCalled, SettingsArePlain};

/// Functions that pass the test by what logic functions take pass it in the texts of the file.
pub fn each_is_annotated()
    ensures { EachIsAnnotated }
{}

/// Where no logic function calls itself, none is called.
pub fn nothing_is_called()
    ensures { NothingIsCalled }
{}

/// Where no logic function calls itself, the setting of a file has none, and is regular.
pub fn settings_are_plain()
    ensures { SettingsArePlain }
{}
