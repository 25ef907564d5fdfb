// What is so of the goals of plain texts.
ghost use Rattle.plain_goals.specs.Laws.{FilesInOrderMeet, FilesWithoutRecursionMeet, GoalsOfTextsAreExact, GoalsOfTextsAreTexts, PlainTextsHaveGoals, PlainTextsStand, ValidFilesRunWell, ValidGoalsOfTextsRunWell};

/// In the setting of a file whose recursive definitions are in order, its texts are what annotations ask for.
pub fn files_in_order_meet()
    ensures { FilesInOrderMeet }
{}

/// So it is where no definition calls itself.
pub fn files_without_recursion_meet()
    ensures { FilesWithoutRecursionMeet }
{}

/// Statements of a plain text have words, where sets of loops name variables that are in scope.
pub fn plain_texts_stand()
    ensures { PlainTextsStand }
{}

/// The core program of a plain text, with its checks, is one of which goals are made.
pub fn plain_texts_have_goals()
    ensures { PlainTextsHaveGoals }
{}

/// Where all goals of functions that call no others are valid, every run of them goes well.
pub fn valid_goals_of_texts_run_well()
    ensures { ValidGoalsOfTextsRunWell }
{}

/// Where all goals of a file are valid, every run of each of its functions goes well.
pub fn valid_files_run_well()
    ensures { ValidFilesRunWell }
{}

/// Goals are valid exactly where no run fails at their checks.
pub fn goals_of_texts_are_exact()
    ensures { GoalsOfTextsAreExact }
{}

/// Goals are well formed, with no names but those that were given out.
pub fn goals_of_texts_are_texts()
    ensures { GoalsOfTextsAreTexts }
{}
