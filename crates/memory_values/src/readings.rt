// What expressions of a function are read over.
use core_trees::FunctionVariable;
use program_trees::Facts;
use qed_terms::Term;
use wp_base::CellKind;

/// The file, the variables of the function and the kinds of its temporaries; and of the state that is read the terms in the slots, and that of the
/// table of blocks.
#[derive(Clone, Copy)]
pub struct Reading<'a> {
    pub facts: &'a Facts,
    pub variables: &'a [FunctionVariable],
    pub temporaries: &'a [CellKind],
    pub slots: &'a [Term],
    pub table: &'a Term,
}
