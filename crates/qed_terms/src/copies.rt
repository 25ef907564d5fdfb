// Copies of terms, formulas and what they are made of. A copy equals its source.
ghost use Rattle.std.specs.Prelude.{◌≡◌, IfOk};

use crate::head::{FormOp, Head, TermOp};
use crate::setting::{LogicFn, Setting};
use crate::term::{Formula, Goal, Term};
use std::alloc::Global;
use wp_base::{Boxed, List, NoMemory};

impl TermOp {
    /// A copy, which equals its source.
    pub fn copy(&self, alloc: Global) -> Result<TermOp, NoMemory>
        ensures { IfOk result (λ op. op ≡ self.now) }
    {
        match self {
            TermOp::Add => Ok(TermOp::Add),
            TermOp::Sub => Ok(TermOp::Sub),
            TermOp::Mul => Ok(TermOp::Mul),
            TermOp::Neg => Ok(TermOp::Neg),
            TermOp::Div => Ok(TermOp::Div),
            TermOp::Mod => Ok(TermOp::Mod),
            TermOp::Wrap(kind) => Ok(TermOp::Wrap(*kind)),
            TermOp::ShiftLeft => Ok(TermOp::ShiftLeft),
            TermOp::ShiftRight => Ok(TermOp::ShiftRight),
            TermOp::BitAnd => Ok(TermOp::BitAnd),
            TermOp::BitOr => Ok(TermOp::BitOr),
            TermOp::BitXor => Ok(TermOp::BitXor),
            TermOp::BitNot => Ok(TermOp::BitNot),
            TermOp::Load => Ok(TermOp::Load),
            TermOp::Count => Ok(TermOp::Count),
            TermOp::Len => Ok(TermOp::Len),
            TermOp::Store => Ok(TermOp::Store),
            TermOp::Alloc(layout) => Ok(TermOp::Alloc(layout.copy(alloc)?)),
            TermOp::Grow => Ok(TermOp::Grow),
        }
    }
}

impl FormOp {
    /// A copy, which equals its source.
    pub fn copy(&self, alloc: Global) -> Result<FormOp, NoMemory>
        ensures { IfOk result (λ op. op ≡ self.now) }
    {
        match self {
            FormOp::Equal => Ok(FormOp::Equal),
            FormOp::AtMost => Ok(FormOp::AtMost),
            FormOp::Less => Ok(FormOp::Less),
            FormOp::Same => Ok(FormOp::Same),
            FormOp::Read(kind) => Ok(FormOp::Read(*kind)),
            FormOp::Write(kind) => Ok(FormOp::Write(*kind)),
            FormOp::Live => Ok(FormOp::Live),
            FormOp::Has(layout) => Ok(FormOp::Has(layout.copy(alloc)?)),
            FormOp::WellFormed(kind) => Ok(FormOp::WellFormed(*kind)),
            FormOp::Frame(shapes) => {
                let shapes = Vec::from_slice(alloc, shapes.as_slice())?;
                Ok(FormOp::Frame(List::from_vec(shapes)))
            }
        }
    }
}

impl Head {
    /// A copy, which equals its source.
    pub fn copy(&self, alloc: Global) -> Result<Head, NoMemory>
        ensures { IfOk result (λ head. head ≡ self.now) }
    {
        match self {
            Head::Num(value) => Ok(Head::Num(*value)),
            Head::Var(name, sort) => Ok(Head::Var(name.copy(alloc)?, *sort)),
            Head::Term(op) => Ok(Head::Term(op.copy(alloc)?)),
            Head::Ite => Ok(Head::Ite),
            Head::App(name) => Ok(Head::App(name.copy(alloc)?)),
            Head::Form(op) => Ok(Head::Form(op.copy(alloc)?)),
            Head::True => Ok(Head::True),
            Head::False => Ok(Head::False),
            Head::Not => Ok(Head::Not),
            Head::And => Ok(Head::And),
            Head::Or => Ok(Head::Or),
            Head::Imp => Ok(Head::Imp),
            Head::Iff => Ok(Head::Iff),
            Head::Forall(name) => Ok(Head::Forall(name.copy(alloc)?)),
            Head::Exists(name) => Ok(Head::Exists(name.copy(alloc)?)),
        }
    }
}

impl Term {
    /// A copy, which equals its source.
    #[cycle(copies)]
    pub fn copy(&self, alloc: Global) -> Result<Term, NoMemory>
        ensures { IfOk result (λ term. term ≡ self.now) }
    {
        match self {
            Term::Num(value) => Ok(Term::Num(*value)),
            Term::Var(name, sort) => Ok(Term::Var(name.copy(alloc)?, *sort)),
            Term::Op(op, kids) => {
                let op = op.copy(alloc)?;
                Ok(Term::Op(op, copy_terms(kids, alloc)?))
            }
            Term::Ite(condition, left, right) => {
                let condition = copy_formula(condition, alloc)?;
                let left = copy_term(left, alloc)?;
                Ok(Term::Ite(condition, left, copy_term(right, alloc)?))
            }
            Term::App(name, kids) => {
                let name = name.copy(alloc)?;
                Ok(Term::App(name, copy_terms(kids, alloc)?))
            }
        }
    }
}

impl Formula {
    /// A copy, which equals its source.
    #[cycle(copies)]
    pub fn copy(&self, alloc: Global) -> Result<Formula, NoMemory>
        ensures { IfOk result (λ formula. formula ≡ self.now) }
    {
        match self {
            Formula::True => Ok(Formula::True),
            Formula::False => Ok(Formula::False),
            Formula::Rel(op, kids) => {
                let op = op.copy(alloc)?;
                Ok(Formula::Rel(op, copy_terms(kids, alloc)?))
            }
            Formula::Not(part) => Ok(Formula::Not(copy_formula(part, alloc)?)),
            Formula::And(parts) => Ok(Formula::And(copy_formulas(parts, alloc)?)),
            Formula::Or(parts) => Ok(Formula::Or(copy_formulas(parts, alloc)?)),
            Formula::Imp(left, right) => {
                let left = copy_formula(left, alloc)?;
                Ok(Formula::Imp(left, copy_formula(right, alloc)?))
            }
            Formula::Iff(left, right) => {
                let left = copy_formula(left, alloc)?;
                Ok(Formula::Iff(left, copy_formula(right, alloc)?))
            }
            Formula::Forall(name, low, high, body) => {
                let name = name.copy(alloc)?;
                let low = copy_term(low, alloc)?;
                let high = copy_term(high, alloc)?;
                Ok(Formula::Forall(name, low, high, copy_formula(body, alloc)?))
            }
            Formula::Exists(name, low, high, body) => {
                let name = name.copy(alloc)?;
                let low = copy_term(low, alloc)?;
                let high = copy_term(high, alloc)?;
                Ok(Formula::Exists(name, low, high, copy_formula(body, alloc)?))
            }
        }
    }
}

#[cycle(copies)]
fn copy_term(term: &Boxed<Term>, alloc: Global) -> Result<Boxed<Term>, NoMemory>
    ensures { IfOk result (λ copy. copy ≡ term.now) }
{
    Boxed::new(alloc, term.get().copy(alloc)?)
}

#[cycle(copies)]
fn copy_formula(formula: &Boxed<Formula>, alloc: Global) -> Result<Boxed<Formula>, NoMemory>
    ensures { IfOk result (λ copy. copy ≡ formula.now) }
{
    Boxed::new(alloc, formula.get().copy(alloc)?)
}

/// A copy of a list of terms, which equals its source.
#[cycle(copies)]
pub fn copy_terms(terms: &List<Term>, alloc: Global) -> Result<List<Term>, NoMemory>
    ensures { IfOk result (λ copies. copies ≡ terms.now) }
{
    let mut copies = Vec::with_capacity(alloc, terms.len())?;
    for term in terms.as_slice() {
        copies.push(term.copy(alloc)?)?;
    }
    Ok(List::from_vec(copies))
}

/// A copy of a list of formulas, which equals its source.
#[cycle(copies)]
pub fn copy_formulas(formulas: &List<Formula>, alloc: Global) -> Result<List<Formula>, NoMemory>
    ensures { IfOk result (λ copies. copies ≡ formulas.now) }
{
    let mut copies = Vec::with_capacity(alloc, formulas.len())?;
    for formula in formulas.as_slice() {
        copies.push(formula.copy(alloc)?)?;
    }
    Ok(List::from_vec(copies))
}

impl Goal {
    /// A copy, which equals its source.
    pub fn copy(&self, alloc: Global) -> Result<Goal, NoMemory>
        ensures { IfOk result (λ goal. goal ≡ self.now) }
    {
        let known = copy_formulas(&self.known, alloc)?;
        let check = self.check.copy(alloc)?;
        Ok(Goal { known, check })
    }
}

impl LogicFn {
    /// A copy, which equals its source.
    pub fn copy(&self, alloc: Global) -> Result<LogicFn, NoMemory>
        ensures { IfOk result (λ function. function ≡ self.now) }
    {
        let name = self.name.copy(alloc)?;
        let params = copy_terms(&self.params, alloc)?;
        let base = self.base.copy(alloc)?;
        let step = self.step.copy(alloc)?;
        Ok(LogicFn {
            name,
            params,
            number: self.number,
            cut: self.cut,
            base,
            step,
        })
    }
}

impl Setting {
    /// A copy, which equals its source.
    pub fn copy(&self, alloc: Global) -> Result<Setting, NoMemory>
        ensures { IfOk result (λ setting. setting ≡ self.now) }
    {
        let mut logic = List::new(alloc);
        for function in self.logic.as_slice() {
            logic.push(function.copy(alloc)?)?;
        }
        Ok(Setting {
            long_bits: self.long_bits,
            logic,
        })
    }
}
