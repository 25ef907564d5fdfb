// What stands for the states that an annotation is read in (ACSL 2.4.3): the terms in the slots of a walk.
ghost use Rattle.std.specs.Prelude.{◌≡◌};
ghost use Rattle.program_steps.specs.Terms as terms;

use core_trees::FunctionVariable;
use program_trees::Facts;
use qed_terms::Term;
use wp_base::{CellKind, Kind, List, Str};

/// What stands for the variables of the function.
#[derive(Clone, Copy)]
pub enum Locals<'a> {
    /// The variables, and all slots of a state; each has a slot for its value and one for its flag, behind those of the file.
    Slots(&'a List<FunctionVariable>, &'a [Term]),
    /// The variables of a callee, and a term for each argument.
    Arguments(&'a List<FunctionVariable>, &'a [Term]),
}

/// A state. Of the file the slots stand for the variables; there are no blocks and no memories.
#[derive(Clone, Copy)]
pub struct Seen<'a> {
    pub file: &'a [Term],
    pub locals: Locals<'a>,
}

/// The term in a slot, an integer of this kind if it has one.
#[derive(Clone, Copy)]
pub struct SlotAt<'a> {
    pub slots: &'a [Term],
    pub at: usize,
    pub kind: Option<Kind>,
}

/// The kind of the integers that a function with this result gives.
pub fn kind_given(given: Option<CellKind>) -> Option<Kind>
    ensures { result ≡ terms.kind_given given }
{
    match given {
        Some(CellKind::Of(kind)) => Some(kind),
        Some(CellKind::Ptr) => None,
        None => None,
    }
}

/// The name of an integer, or those of a pointer's block and offset.
#[derive(Drop)]
pub enum Named {
    Integer(Str),
    Pointer(Str, Str),
}

/// A variable of the file that no pointer leads to, by its number, with its names.
#[derive(Drop)]
pub enum GlobalName {
    Integer(u32, Kind, Str),
    Pointer(u32, Str, Str),
}

/// How a logic function that calls itself is called (ACSL 2.6.3): its name and those of its parameters, and which memories and variables of the file
/// it is given.
#[derive(Drop)]
pub struct Called {
    pub name: Str,
    pub params: List<Named>,
    pub memories: List<CellKind>,
    pub globals: List<GlobalName>,
}

/// The states of labels; `\result`, where there is one; the names of the annotation's binders as they are spelled, in the order of the text; and how
/// logic functions are called, by their numbers.
#[derive(Clone, Copy)]
pub struct Reading<'a> {
    pub facts: &'a Facts,
    pub here: Seen<'a>,
    pub pre: Seen<'a>,
    pub post: Seen<'a>,
    pub loop_entry: Seen<'a>,
    pub result: Option<SlotAt<'a>>,
    pub binders: &'a [Str],
    pub called: &'a [Option<Called>],
}
