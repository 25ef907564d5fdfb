// What is so of texts of files.
ghost use Rattle.logic_texts.specs.Laws.{TextsAreOfFiles};

/// With what is found of a file's logic functions they are the texts of the file.
pub fn texts_are_of_files()
    ensures { TextsAreOfFiles }
{}
