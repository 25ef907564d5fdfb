// What is so of the programs of texts with blocks and pointers.
ghost use Rattle.kinded_files.specs.Laws.{BodiesOfTextsAreTyped, ScopesOfTextsStand, ValuesOfTextsStand, KindedTextsAreKinded, KindedTextsFit};

/// Each body of a text is typed in declarations that are in the program, with layouts, and each function that is declared has a body.
pub fn bodies_of_texts_are_typed()
    ensures { BodiesOfTextsAreTyped }
{}

/// In the program of a text each body declares and uses variables in their scopes.
pub fn scopes_of_texts_stand()
    ensures { ScopesOfTextsStand }
{}

/// In each body of a text values stand, where constants and addresses do.
pub fn values_of_texts_stand()
    ensures { ValuesOfTextsStand }
{}

/// The program of a text has the kinds that are asked of blocks and pointers.
pub fn kinded_texts_are_kinded()
    ensures { KindedTextsAreKinded }
{}

/// The core program, with its checks, of a text fits what the laws on runs ask.
pub fn kinded_texts_fit()
    ensures { KindedTextsFit }
{}
