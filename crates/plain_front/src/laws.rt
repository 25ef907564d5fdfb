// What is so of texts that are read.
ghost use Rattle.plain_front.specs.Laws.{TextsAreRead};

/// What a text is read as is determined; a text that is read has no fault, and no text has two; and each is read or has one.
pub fn texts_are_read()
    ensures { TextsAreRead }
{}
