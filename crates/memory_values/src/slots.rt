// Which slot holds what, and what stands there.
ghost use Rattle.std.specs.Prelude.{◌≡◌, ◌+◌, map, pos, IfOk};
ghost use Rattle.memory_words.specs.Leaves.{as_integer, as_memory, as_table, is_integer_head, is_memory_head, is_table_head};
ghost use Rattle.memory_words.specs.Places as spec;
ghost use Rattle.memory_values.specs.View.{sizes_in, view_place, view_sizes};
ghost use Rattle.qed_terms.specs.Tree.{head_of, node, num, stop};
ghost use Rattle.qed_terms.specs.View.{term_tree};
ghost use Rattle.qed_terms.specs.declared.head.Head.TheVariants as head;
ghost use Rattle.walk_steps.specs.State.{at_or};
ghost use Rattle.wp_base.specs.Kinds as kinds;

use crate::readings::Reading;
use qed_terms::{Sort, Term, TermOp};
use std::alloc::Global;
use typed_prog::Variable;
use wp_base::{Kind, List, NoMemory};

/// How many variables the file and the function have, and how many temporaries.
#[derive(Clone, Copy)]
pub struct Sizes {
    pub globals: usize,
    pub locals: usize,
    pub temporaries: usize,
}

/// What a slot holds: of a variable its value, or the number of its block, and of a pointer the offset; whether a value was set; what the function
/// returns and what a call has returned; temporaries; and the memories of cells by their kinds, of which pointers have two.
#[derive(Clone, Copy)]
pub enum Place {
    Value(Variable),
    Offset(Variable),
    Flag(Variable),
    Result,
    ResultOffset,
    Answer,
    AnswerOffset,
    Temporary(u32),
    TemporaryOffset(u32),
    Numbers(Kind),
    Blocks,
    Offsets,
}

/// The sizes of a function.
#[tactic(auto, using(crate::proofs::Slotted::counted))]
pub fn sizes_of(reading: Reading) -> Sizes
    ensures { view_sizes result ≡ sizes_in reading.entry }
{
    Sizes {
        globals: reading.facts.globals.len(),
        locals: reading.variables.len(),
        temporaries: reading.temporaries.len(),
    }
}

// ---- numbers; there is none behind those of the machine, which no memory holds

fn sum(first: usize, second: usize) -> Result<usize, NoMemory>
    ensures { IfOk result (λ sum. sum ≡ first + second) }
{
    first.checked_add(second).ok_or(NoMemory)
}

#[tactic(auto, using(crate::proofs::Slotted::doubled))]
fn double(number: usize) -> Result<usize, NoMemory>
    ensures { IfOk result (λ double. double ≡ spec.double number) }
{
    number.checked_mul(2).ok_or(NoMemory)
}

#[tactic(auto, using(crate::proofs::Slotted::tripled))]
fn triple(number: usize) -> Result<usize, NoMemory>
    ensures { IfOk result (λ triple. triple ≡ spec.triple number) }
{
    number.checked_mul(3).ok_or(NoMemory)
}

// The number of a variable, those of the function behind those of the file.
fn variable_number(sizes: Sizes, variable: Variable) -> Result<usize, NoMemory>
    ensures { IfOk result (λ number. number ≡ spec.variable_number (view_sizes sizes) variable) }
{
    match variable {
        Variable::Global(number) => Ok(number as usize),
        Variable::Local(number) => sum(sizes.globals, number as usize),
    }
}

fn behind_variables(sizes: Sizes) -> Result<usize, NoMemory>
    ensures { IfOk result (λ slot. slot ≡ spec.behind_variables (view_sizes sizes)) }
{
    triple(sum(sizes.globals, sizes.locals)?)
}

fn behind_temporaries(sizes: Sizes) -> Result<usize, NoMemory>
    ensures { IfOk result (λ slot. slot ≡ spec.behind_temporaries (view_sizes sizes)) }
{
    let temporaries = sum(4, double(sizes.temporaries)?)?;
    sum(behind_variables(sizes)?, temporaries)
}

// The place of a kind in their order.
fn kind_place(kind: Kind) -> usize
    ensures { result ≡ kinds.kind_place kind }
{
    match kind {
        Kind::Bool => 0,
        Kind::Char => 1,
        Kind::SChar => 2,
        Kind::UChar => 3,
        Kind::Short => 4,
        Kind::UShort => 5,
        Kind::Int => 6,
        Kind::UInt => 7,
        Kind::Long => 8,
        Kind::ULong => 9,
        Kind::LLong => 10,
        Kind::ULLong => 11,
    }
}

// ---- slots

// Of a variable's three slots this one.
fn variable_slot(sizes: Sizes, variable: Variable, which: usize) -> Result<usize, NoMemory>
    ensures { IfOk result (λ slot. slot ≡ which + spec.triple (spec.variable_number (view_sizes sizes) variable)) }
{
    sum(which, triple(variable_number(sizes, variable)?)?)
}

// Of the slots of what is returned this one.
fn returned_slot(sizes: Sizes, which: usize) -> Result<usize, NoMemory>
    ensures { IfOk result (λ slot. slot ≡ spec.behind_variables (view_sizes sizes) + which) }
{
    sum(behind_variables(sizes)?, which)
}

// Of a temporary's two slots, behind those of what is returned.
fn temporary_slot(sizes: Sizes, temporary: u32, behind: usize) -> Result<usize, NoMemory>
    ensures { IfOk result (λ slot. slot ≡ spec.behind_variables (view_sizes sizes) + (behind + spec.double temporary)) }
{
    let number = sum(behind, double(temporary as usize)?)?;
    sum(behind_variables(sizes)?, number)
}

// Of the slots of memories this one.
fn memory_slot(sizes: Sizes, which: usize) -> Result<usize, NoMemory>
    ensures { IfOk result (λ slot. slot ≡ spec.behind_temporaries (view_sizes sizes) + which) }
{
    sum(behind_temporaries(sizes)?, which)
}

/// The slot of a place.
#[tactic(auto, unfolding(memory_words::specs::Places::slot))]
pub fn slot_of(sizes: Sizes, place: Place) -> Result<usize, NoMemory>
    ensures { IfOk result (λ slot. slot ≡ spec.slot (view_sizes sizes) (view_place place)) }
{
    match place {
        Place::Value(variable) => variable_slot(sizes, variable, 0),
        Place::Offset(variable) => variable_slot(sizes, variable, 1),
        Place::Flag(variable) => variable_slot(sizes, variable, 2),
        Place::Result => behind_variables(sizes),
        Place::ResultOffset => returned_slot(sizes, 1),
        Place::Answer => returned_slot(sizes, 2),
        Place::AnswerOffset => returned_slot(sizes, 3),
        Place::Temporary(number) => temporary_slot(sizes, number, 4),
        Place::TemporaryOffset(number) => temporary_slot(sizes, number, 5),
        Place::Numbers(kind) => memory_slot(sizes, kind_place(kind)),
        Place::Blocks => memory_slot(sizes, 12),
        Place::Offsets => memory_slot(sizes, 13),
    }
}

// ---- what terms stand for

fn is_integer_op(op: &TermOp) -> bool
    ensures { result ≡ is_integer_head (head.Term op.now) }
{
    match op {
        TermOp::Store | TermOp::Alloc(_) | TermOp::Grow => false,
        TermOp::Add => true,
        TermOp::Sub => true,
        TermOp::Mul => true,
        TermOp::Neg => true,
        TermOp::Div => true,
        TermOp::Mod => true,
        TermOp::Wrap(_) => true,
        TermOp::ShiftLeft => true,
        TermOp::ShiftRight => true,
        TermOp::BitAnd => true,
        TermOp::BitOr => true,
        TermOp::BitXor => true,
        TermOp::BitNot => true,
        TermOp::Load => true,
        TermOp::Count => true,
        TermOp::Len => true,
    }
}

// Whether a term stands for an integer.
#[tactic(auto, using(qed_terms::proofs::Equations::tree_laws))]
fn is_integer(term: &Term) -> bool
    ensures { result ≡ is_integer_head (head_of (term_tree term.now)) }
{
    match term {
        Term::Num(_) => true,
        Term::Var(_, sort) => match sort {
            Sort::Int => true,
            Sort::Memory => false,
            Sort::Table => false,
        },
        Term::Op(op, _) => is_integer_op(op),
        Term::Ite(_, _, _) => true,
        Term::App(_, _) => true,
    }
}

fn is_memory_op(op: &TermOp) -> bool
    ensures { result ≡ is_memory_head (head.Term op.now) }
{
    matches!(op, TermOp::Store)
}

// For a memory.
#[tactic(auto, using(qed_terms::proofs::Equations::tree_laws))]
fn is_memory(term: &Term) -> bool
    ensures { result ≡ is_memory_head (head_of (term_tree term.now)) }
{
    match term {
        Term::Num(_) => false,
        Term::Var(_, sort) => match sort {
            Sort::Int => false,
            Sort::Memory => true,
            Sort::Table => false,
        },
        Term::Op(op, _) => is_memory_op(op),
        Term::Ite(_, _, _) => false,
        Term::App(_, _) => false,
    }
}

fn is_table_op(op: &TermOp) -> bool
    ensures { result ≡ is_table_head (head.Term op.now) }
{
    matches!(op, TermOp::Alloc(_) | TermOp::Grow)
}

// For a table of blocks.
#[tactic(auto, using(qed_terms::proofs::Equations::tree_laws))]
fn is_table(term: &Term) -> bool
    ensures { result ≡ is_table_head (head_of (term_tree term.now)) }
{
    match term {
        Term::Num(_) => false,
        Term::Var(_, sort) => match sort {
            Sort::Int => false,
            Sort::Memory => false,
            Sort::Table => true,
        },
        Term::Op(op, _) => is_table_op(op),
        Term::Ite(_, _, _) => false,
        Term::App(_, _) => false,
    }
}

// ---- what stands in slots

// A head without parts: the memory of zeros, and the table of block 0 alone.
#[tactic(auto, using(qed_terms::proofs::Equations::tree_laws))]
fn bare(alloc: Global, op: TermOp) -> Term
    ensures { term_tree result ≡ node (head.Term op) stop }
{
    Term::Op(op, List::new(alloc))
}

// The term, or 0 where it stands for no integer.
#[tactic(auto, using(crate::proofs::Slotted::integer, crate::proofs::Slotted::no_integer))]
fn as_integer(alloc: Global, term: &Term) -> Result<Term, NoMemory>
    ensures { IfOk result (λ read. term_tree read ≡ as_integer (term_tree term.now)) }
{
    if is_integer(term) {
        term.copy(alloc)
    } else {
        Ok(Term::number(0))
    }
}

// The term, or the memory of zeros.
#[tactic(auto, using(crate::proofs::Slotted::memory, crate::proofs::Slotted::no_memory_there))]
fn as_memory(alloc: Global, term: &Term) -> Result<Term, NoMemory>
    ensures { IfOk result (λ read. term_tree read ≡ as_memory (term_tree term.now)) }
{
    if is_memory(term) {
        term.copy(alloc)
    } else {
        Ok(bare(alloc, TermOp::Store))
    }
}

/// The table's term, or the table of block 0 alone.
#[tactic(auto, using(crate::proofs::Slotted::table, crate::proofs::Slotted::no_table_there))]
pub fn read_table(alloc: Global, term: &Term) -> Result<Term, NoMemory>
    ensures { IfOk result (λ read. term_tree read ≡ as_table (term_tree term.now)) }
{
    if is_table(term) {
        term.copy(alloc)
    } else {
        Ok(bare(alloc, TermOp::Grow))
    }
}

/// The integer in a slot; a slot that isn't there, and one whose term stands for no integer, has 0.
#[tactic(auto, using(crate::proofs::Slotted::integer_some, crate::proofs::Slotted::integer_none))]
pub fn read_integer(alloc: Global, slots: &[Term], at: usize) -> Result<Term, NoMemory>
    ensures { IfOk result (λ term. term_tree term ≡ as_integer (at_or (num (pos 0)) (map term_tree slots.now) at)) }
{
    if at < slots.len() {
        as_integer(alloc, &slots[at])
    } else {
        Ok(Term::number(0))
    }
}

/// The memory in a slot; where there is none, that of zeros.
#[tactic(auto, using(crate::proofs::Slotted::memory_some, crate::proofs::Slotted::memory_none))]
pub fn read_memory(alloc: Global, slots: &[Term], at: usize) -> Result<Term, NoMemory>
    ensures { IfOk result (λ term. term_tree term ≡ as_memory (at_or (num (pos 0)) (map term_tree slots.now) at)) }
{
    if at < slots.len() {
        as_memory(alloc, &slots[at])
    } else {
        Ok(bare(alloc, TermOp::Store))
    }
}
