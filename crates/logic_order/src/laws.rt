// What is so of files whose logic functions are in order.
ghost use Rattle.logic_order.specs.Laws.{FilesInOrder, FunctionsTake};
ghost use Rattle.logic_order.specs.Examples.{ExamplesHold};

/// Where they pass the test, formulas have the values of the definitions, and the setting is regular.
pub fn files_in_order()
    ensures { FilesInOrder }
{}

/// Functions that may be called take as many integers as it is said of them.
pub fn functions_take()
    ensures { FunctionsTake }
{}

/// A function with a variable of the file is in order; one that goes down by two, or whose parameter has the variable's name, isn't.
pub fn examples_hold()
    ensures { ExamplesHold }
{}
