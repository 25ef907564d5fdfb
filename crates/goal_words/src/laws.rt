// That each word has one meaning and each meaning one word.
ghost use Rattle.goal_words.specs.Laws.{CountHasOneText, KindHasOneWord, NumberHasOneText, PartIsSpaceAndWord};

/// A word is a number exactly where it is the number's text, and a number of 128 bits.
pub fn number_has_one_text()
    ensures { NumberHasOneText }
{}

/// The same of numbers of 32 bits.
pub fn count_has_one_text()
    ensures { CountHasOneText }
{}

/// A word names the kind of a cell exactly where it is the word of that kind.
pub fn kind_has_one_word()
    ensures { KindHasOneWord }
{}

/// A part is one space and a word, which ends at a space, at a bracket or with the text.
pub fn part_is_space_and_word()
    ensures { PartIsSpaceAndWord }
{}
