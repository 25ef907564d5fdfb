// Which slot holds what, and what stands there.
ghost use Rattle.std.specs.Prelude.{◌≡◌, ◌+◌, map, IfOk};
ghost use Rattle.core_trees.specs.View.{view_variables};
ghost use Rattle.plain_states.specs.Slots as spec;
ghost use Rattle.program_steps.specs.Leaves.{as_integer, is_integer_head};
ghost use Rattle.program_trees.specs.View.{view_facts};
ghost use Rattle.qed_terms.specs.Tree.{head_of};
ghost use Rattle.qed_terms.specs.View.{term_tree};
ghost use Rattle.qed_terms.specs.declared.head.Head.TheVariants as head;
ghost use Rattle.value_words.specs.OverSlots.{slot_term};
ghost use Rattle.value_words.specs.View.{view_sizes};

use core_trees::FunctionVariable;
use program_trees::Facts;
use qed_terms::{Sort, Term, TermOp};
use std::alloc::Global;
use wp_base::NoMemory;

/// How many variables the file and the function have.
#[derive(Clone, Copy)]
pub struct Sizes {
    pub globals: usize,
    pub locals: usize,
}

/// The sizes of a function with these variables.
#[tactic(auto, using(crate::proofs::Slotted::counted))]
pub fn sizes_of(facts: &Facts, variables: &[FunctionVariable]) -> Sizes
    ensures { view_sizes result ≡ spec.sizes_of (view_facts facts.now) (view_variables variables.now) }
{
    Sizes {
        globals: facts.globals.len(),
        locals: variables.len(),
    }
}

// ---- numbers; there is none behind those of the machine, which no memory holds

fn sum(first: usize, second: usize) -> Result<usize, NoMemory>
    ensures { IfOk result (λ sum. sum ≡ first + second) }
{
    first.checked_add(second).ok_or(NoMemory)
}

/// The slot of what a variable holds.
#[tactic(auto, using(crate::proofs::Slotted::doubled))]
pub fn value_slot(variable: usize) -> Result<usize, NoMemory>
    ensures { IfOk result (λ slot. slot ≡ spec.value_slot variable) }
{
    variable.checked_mul(2).ok_or(NoMemory)
}

/// The slot of whether it was set.
pub fn flag_slot(variable: usize) -> Result<usize, NoMemory>
    ensures { IfOk result (λ slot. slot ≡ spec.flag_slot variable) }
{
    sum(1, value_slot(variable)?)
}

/// The slot of what a variable of the function holds.
pub fn local_value(sizes: Sizes, variable: u32) -> Result<usize, NoMemory>
    ensures { IfOk result (λ slot. slot ≡ spec.local_value (view_sizes sizes) variable) }
{
    value_slot(sum(sizes.globals, variable as usize)?)
}

/// The slot of whether it was set.
pub fn local_flag(sizes: Sizes, variable: u32) -> Result<usize, NoMemory>
    ensures { IfOk result (λ slot. slot ≡ spec.local_flag (view_sizes sizes) variable) }
{
    flag_slot(sum(sizes.globals, variable as usize)?)
}

/// The slot of the function's result.
pub fn result_slot(sizes: Sizes) -> Result<usize, NoMemory>
    ensures { IfOk result (λ slot. slot ≡ spec.result_slot (view_sizes sizes)) }
{
    value_slot(sum(sizes.globals, sizes.locals)?)
}

/// The slot of the result of a call.
pub fn answer_slot(sizes: Sizes) -> Result<usize, NoMemory>
    ensures { IfOk result (λ slot. slot ≡ spec.answer_slot (view_sizes sizes)) }
{
    flag_slot(sum(sizes.globals, sizes.locals)?)
}

/// The slot of a temporary.
pub fn temp_slot(sizes: Sizes, temporary: u32) -> Result<usize, NoMemory>
    ensures { IfOk result (λ slot. slot ≡ spec.temp_slot (view_sizes sizes) temporary) }
{
    let first = sum(1, answer_slot(sizes)?)?;
    sum(first, temporary as usize)
}

// ---- terms

fn is_integer_op(op: &TermOp) -> bool
    ensures { result ≡ is_integer_head (head.Term op.now) }
{
    match op {
        TermOp::Store | TermOp::Alloc(_) | TermOp::Grow => false,
        TermOp::Add => true,
        TermOp::Sub => true,
        TermOp::Mul => true,
        TermOp::Neg => true,
        TermOp::Div => true,
        TermOp::Mod => true,
        TermOp::Wrap(_) => true,
        TermOp::ShiftLeft => true,
        TermOp::ShiftRight => true,
        TermOp::BitAnd => true,
        TermOp::BitOr => true,
        TermOp::BitXor => true,
        TermOp::BitNot => true,
        TermOp::Load => true,
        TermOp::Count => true,
        TermOp::Len => true,
    }
}

// Whether a term stands for an integer.
#[tactic(auto, using(qed_terms::proofs::Equations::tree_laws))]
fn is_integer(term: &Term) -> bool
    ensures { result ≡ is_integer_head (head_of (term_tree term.now)) }
{
    match term {
        Term::Num(_) => true,
        Term::Var(_, sort) => match sort {
            Sort::Int => true,
            Sort::Memory => false,
            Sort::Table => false,
        },
        Term::Op(op, _) => is_integer_op(op),
        Term::Ite(_, _, _) => true,
        Term::App(_, _) => true,
    }
}

// The term, or 0 where it stands for no integer.
#[tactic(auto, using(crate::proofs::Slotted::integer, crate::proofs::Slotted::no_integer))]
fn integer(alloc: Global, term: &Term) -> Result<Term, NoMemory>
    ensures { IfOk result (λ read. term_tree read ≡ as_integer (term_tree term.now)) }
{
    if is_integer(term) {
        term.copy(alloc)
    } else {
        Ok(Term::number(0))
    }
}

/// The term in a slot; a slot that isn't there, and one whose term stands for no integer, has 0.
#[tactic(auto, using(crate::proofs::Slotted::slot_some, crate::proofs::Slotted::slot_none))]
pub fn read_slot(alloc: Global, slots: &[Term], at: usize) -> Result<Term, NoMemory>
    ensures { IfOk result (λ term. term_tree term ≡ slot_term (map term_tree slots.now) at) }
{
    if at < slots.len() {
        integer(alloc, &slots[at])
    } else {
        Ok(Term::number(0))
    }
}
