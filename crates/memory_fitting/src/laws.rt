// What is typed fits.
ghost use Rattle.memory_fitting.specs.Expressions.{ExpressionsStayTyped, OperandsStayTyped};
ghost use Rattle.memory_fitting.specs.Values.{TypedExpressionsFit, TypedVariablesFit};
ghost use Rattle.memory_fitting.specs.Statements.{TypedStatementsFit};
ghost use Rattle.memory_fitting.specs.Functions.{TypedFunctionsFit};

/// A typed expression stays typed where no more cells are known than those of the file.
pub fn expressions_stay_typed()
    ensures { ExpressionsStayTyped }
{}

/// And so do operands.
pub fn operands_stay_typed()
    ensures { OperandsStayTyped }
{}

/// Typed expressions, ways and what is stored are what the laws on words ask for.
pub fn typed_expressions_fit()
    ensures { TypedExpressionsFit }
{}

/// So are variables that are declared.
pub fn typed_variables_fit()
    ensures { TypedVariablesFit }
{}

/// And so are statements, whose annotations are.
pub fn typed_statements_fit()
    ensures { TypedStatementsFit }
{}

/// And so are whole functions.
pub fn typed_functions_fit()
    ensures { TypedFunctionsFit }
{}
