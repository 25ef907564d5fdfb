// What is so of names and scopes, as laws.
ghost use Rattle.name_table.specs.Laws.{DeclarationsAdd, DeclarationsHide, MeaningsAreDeclared, MeaningsAreInnermost, ScopesAreEntered};

/// A name means what the first declaration of it says.
pub fn meanings_are_declared<V>()
    ensures { MeaningsAreDeclared V }
{}

/// A declaration gives a new name its meaning, and leaves every other name as it was.
pub fn declarations_add<V>()
    ensures { DeclarationsAdd V }
{}

/// What is found is declared in the innermost scope that declares it.
pub fn meanings_are_innermost<V>()
    ensures { MeaningsAreInnermost V }
{}

/// An inner declaration hides an outer one of the same name until its scope is left.
pub fn declarations_hide<V>()
    ensures { DeclarationsHide V }
{}

/// A scope that was entered has no names, and the others are there again when it is left.
pub fn scopes_are_entered<V>()
    ensures { ScopesAreEntered V }
{}
