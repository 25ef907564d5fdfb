// What is so of typed expressions.
ghost use Rattle.typed_values.specs.Values.{OperatorsAreTyped, CoreValuesAreTyped, OperandsAreTyped, WellTypedAreTyped, ChangedAreTyped};
ghost use Rattle.typed_values.specs.Files.{FilesKnowTheirCells};
ghost use Rattle.typed_values.specs.Programs.{ProgramsMeetTheirFiles};

/// An operator that fits its operands is typed by the kinds of cells.
pub fn operators_are_typed()
    ensures { OperatorsAreTyped }
{}

/// An expression of a core program whose nodes fit is typed by the kinds of cells.
pub fn core_values_are_typed()
    ensures { CoreValuesAreTyped }
{}

/// Operands one after the other are typed by the kinds of cells.
pub fn operands_are_typed()
    ensures { OperandsAreTyped }
{}

/// A well-typed value without effects is typed by the kinds of cells.
pub fn well_typed_are_typed()
    ensures { WellTypedAreTyped }
{}

/// The way to an object that is changed is typed by the kinds of cells.
pub fn changed_are_typed()
    ensures { ChangedAreTyped }
{}

/// All that variables, fields, results and null pointers of a file lead to is among the cells that it speaks of.
pub fn files_know_their_cells()
    ensures { FilesKnowTheirCells }
{}

/// Expressions of a body stand in the program of its file, where all that is declared has a layout.
pub fn programs_meet_their_files()
    ensures { ProgramsMeetTheirFiles }
{}
