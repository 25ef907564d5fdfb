// The terms that stand for variables in a state.
ghost use Rattle.std.specs.Prelude.{◌≡◌, ◌+◌, ℕ, List, [], ◌∷◌, map, IfOk, slice_get};
ghost use Rattle.std.specs.Option.{is_some};
ghost use Rattle.plain_states.specs.Scopes.{kind_in, kind_of};
ghost use Rattle.plain_states.specs.Slots.{value_slot};
ghost use Rattle.core_trees.specs.View.{view_variable, view_variables};
ghost use Rattle.program_trees.specs.View.{view_facts};
ghost use Rattle.program_steps.specs.Leaves.{as_integer, is_integer_head};
ghost use Rattle.program_steps.specs.Terms.{held_in};
ghost use Rattle.qed_terms.specs.Tree.{Tree, head_of};
ghost use Rattle.qed_terms.specs.declared.head.Head.TheVariants as head;
ghost use Rattle.qed_terms.specs.View.{term_tree};
ghost use Rattle.c_runs.specs.Program as program;
ghost use Rattle.annotation_words.specs.Seen as spec;
ghost use Rattle.annotation_words.specs.View.{slot_with, view_locals, view_seen, view_slot};

use crate::readings::{Locals, Seen};
use core_trees::FunctionVariable;
use program_trees::Facts;
use qed_terms::{Sort, Term, TermOp};
use std::alloc::Global;
use typed_prog::Variable;
use wp_base::{CellKind, Kind, List, NoMemory};

/// What a variable holds: an integer of a kind, or one of any size.
#[derive(Drop)]
pub struct Held {
    pub kind: Option<Kind>,
    pub term: Term,
}

// ---- slots

// Whether the head is that of a term for an integer.
fn gives_integer(op: &TermOp) -> bool
    ensures { result ≡ is_integer_head (head.Term op.now) }
{
    match op {
        TermOp::Store | TermOp::Alloc(_) | TermOp::Grow => false,
        TermOp::Add
        | TermOp::Sub
        | TermOp::Mul
        | TermOp::Neg
        | TermOp::Div
        | TermOp::Mod
        | TermOp::Wrap(_)
        | TermOp::ShiftLeft
        | TermOp::ShiftRight
        | TermOp::BitAnd
        | TermOp::BitOr
        | TermOp::BitXor
        | TermOp::BitNot
        | TermOp::Load
        | TermOp::Count
        | TermOp::Len => true,
    }
}

// Whether it is the sort of integers.
fn is_of_integers(sort: Sort) -> bool
    ensures { (name : List ℕ) → is_integer_head (head.Var name sort) ≡ result }
{
    match sort {
        Sort::Int => true,
        Sort::Memory => false,
        Sort::Table => false,
    }
}

#[tactic(auto, using(qed_terms::proofs::Equations::tree_laws))]
fn is_integer(term: &Term) -> bool
    ensures { result ≡ is_integer_head (head_of (term_tree term.now)) }
{
    match term {
        Term::Num(_) => true,
        Term::Var(_, sort) => is_of_integers(*sort),
        Term::Op(op, _) => gives_integer(op),
        Term::Ite(_, _, _) => true,
        Term::App(_, _) => true,
    }
}

// What is no term for an integer counts as 0.
#[tactic(auto, using(crate::proofs::Holding::integer_kept, crate::proofs::Holding::integer_lost))]
fn integer_or_zero(alloc: Global, term: &Term) -> Result<Term, NoMemory>
    ensures { IfOk result (λ integer. term_tree integer ≡ as_integer (term_tree term.now)) }
{
    if is_integer(term) {
        term.copy(alloc)
    } else {
        Ok(Term::number(0))
    }
}

/// The term in a slot; what is no term for an integer counts as 0.
#[tactic(auto, using(crate::proofs::Holding::slot_found, crate::proofs::Holding::slot_missing))]
pub fn slot_term(alloc: Global, slots: &[Term], at: usize) -> Result<Term, NoMemory>
    ensures { IfOk result (λ term. term_tree term ≡ spec.slot_term (map term_tree slots.now) at) }
{
    if at < slots.len() {
        integer_or_zero(alloc, &slots[at])
    } else {
        Ok(Term::number(0))
    }
}

// The slot of a variable's value, with so many variables before those of which this is one.
#[tactic(auto, using(crate::proofs::Holding::doubled))]
fn slot_place(before: usize, variable: u32) -> Result<usize, NoMemory>
    ensures { IfOk result (λ at. at ≡ value_slot (before + variable)) }
{
    let Some(variable) = before.checked_add(variable as usize) else {
        return Err(NoMemory);
    };
    let Some(at) = variable.checked_mul(2) else {
        return Err(NoMemory);
    };
    Ok(at)
}

// ---- variables

// The kind of a first cell.
fn cell_kind(cell: CellKind) -> Kind
    ensures { result ≡ kind_in (cell ∷ []) }
{
    match cell {
        CellKind::Of(kind) => kind,
        CellKind::Ptr => Kind::Int,
    }
}

// The kind of a variable.
#[tactic(auto, using(crate::proofs::Holding::first_kind, crate::proofs::Holding::no_cell))]
fn kind_of(variable: &FunctionVariable) -> Kind
    ensures { result ≡ kind_of (view_variable variable.now) }
{
    let cells = variable.layout.cells.as_slice();
    if cells.is_empty() {
        Kind::Int
    } else {
        cell_kind(cells[0])
    }
}

// The kind of what it holds; one that is declared without a value may hold any integer.
fn held_kind(variable: &FunctionVariable) -> Option<Kind>
    ensures { (term : Tree) → slot_with result term ≡ held_in (view_variable variable.now) term }
{
    if variable.has_value {
        Some(kind_of(variable))
    } else {
        None
    }
}

// The term of a variable's value, with so many variables before those of which this is one.
fn value_term(alloc: Global, slots: &[Term], before: usize, variable: u32) -> Result<Term, NoMemory>
    ensures { IfOk result (λ term. term_tree term ≡ spec.slot_term (map term_tree slots.now) (value_slot (before + variable))) }
{
    let at = slot_place(before, variable)?;
    let term = slot_term(alloc, slots, at)?;
    Ok(term)
}

// A variable of the file.
#[tactic(auto, using(crate::proofs::Holding::variable_laws))]
fn in_file(
    alloc: Global,
    variables: &List<FunctionVariable>,
    number: u32,
    slots: &[Term],
) -> Result<Option<Held>, NoMemory>
    ensures { IfOk result (λ held. view_slot held ≡ spec.of_kind (slice_get (view_variables variables.now) number) (spec.slot_term (map term_tree slots.now) (value_slot number))) }
{
    let Some(variable) = variables.get(number as usize) else {
        return Ok(None);
    };
    let kind = kind_of(variable);
    let term = value_term(alloc, slots, 0, number)?;
    Ok(Some(Held {
        kind: Some(kind),
        term,
    }))
}

// A variable of the function.
#[tactic(auto, using(crate::proofs::Holding::variable_laws))]
fn in_slot(
    alloc: Global,
    variables: &List<FunctionVariable>,
    before: usize,
    number: u32,
    slots: &[Term],
) -> Result<Option<Held>, NoMemory>
    ensures { IfOk result (λ held. view_slot held ≡ spec.of_local (slice_get (view_variables variables.now) number) (spec.slot_term (map term_tree slots.now) (value_slot (before + number)))) }
{
    let Some(variable) = variables.get(number as usize) else {
        return Ok(None);
    };
    let kind = held_kind(variable);
    let term = value_term(alloc, slots, before, number)?;
    Ok(Some(Held { kind, term }))
}

#[tactic(auto, using(crate::proofs::Holding::variable_laws))]
fn in_argument(
    alloc: Global,
    variables: &List<FunctionVariable>,
    number: u32,
    arguments: &[Term],
) -> Result<Option<Held>, NoMemory>
    ensures { IfOk result (λ held. view_slot held ≡ spec.argument (slice_get (view_variables variables.now) number) (slice_get (map term_tree arguments.now) number)) }
{
    let Some(argument) = arguments.get(number as usize) else {
        return Ok(None);
    };
    let Some(variable) = variables.get(number as usize) else {
        return Ok(None);
    };
    let kind = kind_of(variable);
    let term = argument.copy(alloc)?;
    Ok(Some(Held {
        kind: Some(kind),
        term,
    }))
}

fn in_locals(
    alloc: Global,
    facts: &Facts,
    locals: Locals,
    number: u32,
) -> Result<Option<Held>, NoMemory>
    ensures { IfOk result (λ held. view_slot held ≡ view_locals (view_facts facts.now) locals.entry number) }
{
    match locals {
        Locals::Slots(variables, slots) => {
            in_slot(alloc, variables, facts.globals.len(), number, slots)
        }
        Locals::Arguments(variables, arguments) => {
            in_argument(alloc, variables, number, arguments)
        }
    }
}

/// What stands for a variable.
pub fn slot_of(
    alloc: Global,
    facts: &Facts,
    seen: Seen,
    variable: Variable,
) -> Result<Option<Held>, NoMemory>
    ensures { IfOk result (λ held. view_slot held ≡ (view_seen (view_facts facts.now) seen.entry).variable variable) }
{
    match variable {
        Variable::Global(number) => in_file(alloc, &facts.globals, number, seen.file),
        Variable::Local(number) => in_locals(alloc, facts, seen.locals, number),
    }
}

// ---- which variables there are

// Whether there is a variable with this number.
fn is_declared(variables: &List<FunctionVariable>, number: u32) -> bool
    ensures { result ≡ is_some (slice_get variables.now number) }
{
    variables.get(number as usize).is_some()
}

// Whether there is an argument with this number.
fn is_given(arguments: &[Term], number: u32) -> bool
    ensures { result ≡ is_some (slice_get arguments.now number) }
{
    arguments.get(number as usize).is_some()
}

#[tactic(auto, using(crate::proofs::Holding::known_laws))]
fn is_local(locals: Locals, number: u32) -> bool
    ensures { (facts : program.Facts) → spec.is_known (view_locals facts locals.entry number) ≡ result }
{
    match locals {
        Locals::Slots(variables, _) => is_declared(variables, number),
        Locals::Arguments(variables, arguments) => {
            if is_given(arguments, number) {
                is_declared(variables, number)
            } else {
                false
            }
        }
    }
}

/// Whether something stands for the variable.
#[tactic(auto, using(crate::proofs::Holding::known_laws))]
pub fn is_known(facts: &Facts, seen: Seen, variable: Variable) -> bool
    ensures { spec.is_known ((view_seen (view_facts facts.now) seen.entry).variable variable) ≡ result }
{
    match variable {
        Variable::Global(number) => is_declared(&facts.globals, number),
        Variable::Local(number) => is_local(seen.locals, number),
    }
}
