// Linear forms: numbers times atoms, and a constant.
ghost use Rattle.std.specs.Prelude.{◌≡◌, IfOk};
ghost use Rattle.qed_terms.specs.Tree.{head_of};
ghost use Rattle.qed_terms.specs.View.{term_tree};
ghost use Rattle.qed_terms.specs.declared.head.Head.TheVariants as h;
ghost use Rattle.qed_linear.specs.Linear.{is_integer, number, atom_lin};
ghost use Rattle.qed_linear.specs.View.{lin_of, IsEnded};

use qed_terms::{Sort, Term, TermOp};
use std::alloc::Global;
use wp_base::NoMemory;

fn makes_integer(op: &TermOp) -> bool
    ensures { result ≡ is_integer (h.Term op.now) }
{
    match op {
        TermOp::Store | TermOp::Alloc(_) | TermOp::Grow => false,
        TermOp::Add
        | TermOp::Sub
        | TermOp::Mul
        | TermOp::Neg
        | TermOp::Div
        | TermOp::Mod
        | TermOp::Wrap(_)
        | TermOp::ShiftLeft
        | TermOp::ShiftRight
        | TermOp::BitAnd
        | TermOp::BitOr
        | TermOp::BitXor
        | TermOp::BitNot
        | TermOp::Load
        | TermOp::Count
        | TermOp::Len => true,
    }
}

/// Whether the term means an integer.
#[tactic(auto, using(qed_terms::proofs::Equations::tree_laws))]
pub fn is_integer(term: &Term) -> bool
    ensures { result ≡ is_integer (head_of (term_tree term.now)) }
{
    match term {
        Term::Num(_) => true,
        Term::Var(_, sort) => match sort {
            Sort::Int => true,
            Sort::Memory => false,
            Sort::Table => false,
        },
        Term::Op(op, _) => makes_integer(op),
        Term::Ite(_, _, _) => true,
        Term::App(_, _) => true,
    }
}

/// A number times an atom.
#[derive(Drop)]
pub struct LinPart {
    pub atom: Term,
    pub times: i128,
}

/// A sum of parts and a constant.
#[derive(Drop)]
pub struct LinForm {
    pub parts: Vec<LinPart>,
    pub constant: i128,
}

/// Why there is no form: a number in it doesn't fit 128 bits, or memory ran out.
#[derive(Clone, Copy, Debug, PartialEq, Eq)]
pub enum LinEnd {
    TooWide,
    NoMemory,
}

/// The form that was made, or why there is none.
pub fn ended(made: Result<Option<LinForm>, NoMemory>) -> Result<LinForm, LinEnd>
    ensures { IsEnded made result }
{
    match made {
        Ok(Some(form)) => Ok(form),
        Ok(None) => Err(LinEnd::TooWide),
        Err(NoMemory) => Err(LinEnd::NoMemory),
    }
}

/// The form of a number.
pub fn number(alloc: Global, constant: i128) -> LinForm
    ensures { lin_of result ≡ number constant }
{
    LinForm {
        parts: Vec::new(alloc),
        constant,
    }
}

/// The form of a term that has none of its own.
pub fn atom(alloc: Global, atom: Term) -> Result<LinForm, NoMemory>
    ensures { IfOk result (λ form. lin_of form ≡ atom_lin (term_tree atom)) }
{
    let mut parts = Vec::new(alloc);
    parts.push(LinPart { atom, times: 1 })?;
    Ok(LinForm { parts, constant: 0 })
}
