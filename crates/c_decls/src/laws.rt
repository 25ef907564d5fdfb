// What is so of declarations, as laws.
ghost use Rattle.c_decls.specs.Laws.{ConstantsReadNothing, NamesAreDeclaredOnce, NumbersCountUp, StructsAreLaidOut, VariablesHavePlaces};

/// Enumerators without numbers count up from the one before them, and the first from 0; the others are what is written.
#[tactic(auto, using(crate::proofs::Numbering::numbers_count_up))]
pub fn numbers_count_up()
    ensures { NumbersCountUp }
{}

/// A struct has the cells of its fields in order, each field at the cell behind those before it, and so many cells are noted of it.
#[tactic(auto, using(crate::proofs::LayingOut::structs_are_laid_out))]
pub fn structs_are_laid_out()
    ensures { StructsAreLaidOut }
{}

/// A name is declared once in a scope, but a variable, which is declared again as one alone.
#[tactic(auto, using(crate::proofs::Once::names_are_declared_once))]
pub fn names_are_declared_once()
    ensures { NamesAreDeclaredOnce }
{}

/// A constant reads no object and goes through no pointer, in none of its parts.
#[tactic(auto, using(crate::proofs::Reading::constants_read_nothing))]
pub fn constants_read_nothing()
    ensures { ConstantsReadNothing }
{}

/// Each variable of the file has a flag and a place, in which its initialiser stands once and for all; these are constants.
pub fn variables_have_places()
    ensures { VariablesHavePlaces }
{}
