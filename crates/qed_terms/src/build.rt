// The terms and formulas that goals are made of.
ghost use Rattle.std.specs.Prelude.{◌≡◌, ◌↔◌, [], ◌∷◌, map, IfOk, IsTrue};
ghost use Rattle.qed_terms.specs.Tree.{and_of, imp_of, ite, node, not_of, num, or_of, true_tree, two, var};
ghost use Rattle.qed_terms.specs.View.{formula_tree, goal_tree, term_tree};
ghost use Rattle.qed_terms.specs.declared.head.Head.TheVariants as head;

use crate::copies::copy_formulas;
use crate::head::{FormOp, Sort, TermOp};
use crate::term::{Formula, Goal, Term};
use std::alloc::Global;
use wp_base::{Boxed, List, NoMemory, Str};

fn pair<T: Drop>(alloc: Global, left: T, right: T) -> Result<List<T>, NoMemory>
    ensures { IfOk result (λ kids. kids ≡ left ∷ right ∷ []) }
{
    let mut kids = Vec::with_capacity(alloc, 2)?;
    kids.push(left)?;
    kids.push(right)?;
    Ok(List::from_vec(kids))
}

impl Term {
    #[tactic(auto, using(crate::proofs::Equations::tree_laws))]
    pub fn number(value: i128) -> Term
        ensures { term_tree result ≡ num value }
    {
        Term::Num(value)
    }

    /// The integer of this name.
    #[tactic(auto, using(crate::proofs::Equations::tree_laws))]
    pub fn name(alloc: Global, name: &Str) -> Result<Term, NoMemory>
        ensures { IfOk result (λ term. term_tree term ≡ var name.now) }
    {
        Ok(Term::Var(name.copy(alloc)?, Sort::Int))
    }

    /// A head over two terms.
    #[tactic(auto, using(crate::proofs::Equations::tree_laws))]
    pub fn over(alloc: Global, op: TermOp, left: Term, right: Term) -> Result<Term, NoMemory>
        ensures { IfOk result (λ term. term_tree term ≡ node (head.Term op) (two (term_tree left) (term_tree right))) }
    {
        Ok(Term::Op(op, pair(alloc, left, right)?))
    }

    /// The first term where the condition is true, and else the second.
    #[tactic(auto, using(crate::proofs::Equations::tree_laws))]
    pub fn ite(alloc: Global, condition: Formula, left: Term, right: Term) -> Result<Term, NoMemory>
        ensures { IfOk result (λ term. term_tree term ≡ ite (formula_tree condition) (term_tree left) (term_tree right)) }
    {
        let condition = Boxed::new(alloc, condition)?;
        let left = Boxed::new(alloc, left)?;
        let right = Boxed::new(alloc, right)?;
        Ok(Term::Ite(condition, left, right))
    }
}

impl Formula {
    /// A relation of two terms.
    #[tactic(auto, using(crate::proofs::Equations::tree_laws))]
    pub fn relation(alloc: Global, op: FormOp, left: Term, right: Term) -> Result<Formula, NoMemory>
        ensures { IfOk result (λ formula. formula_tree formula ≡ node (head.Form op) (two (term_tree left) (term_tree right))) }
    {
        Ok(Formula::Rel(op, pair(alloc, left, right)?))
    }

    #[tactic(auto, using(crate::proofs::Equations::tree_laws))]
    pub fn negation(alloc: Global, part: Formula) -> Result<Formula, NoMemory>
        ensures { IfOk result (λ formula. formula_tree formula ≡ not_of (formula_tree part)) }
    {
        Ok(Formula::Not(Boxed::new(alloc, part)?))
    }

    /// `and` of two formulas.
    #[tactic(auto, using(crate::proofs::Equations::tree_laws))]
    pub fn both(alloc: Global, left: Formula, right: Formula) -> Result<Formula, NoMemory>
        ensures { IfOk result (λ formula. formula_tree formula ≡ and_of (formula_tree left ∷ formula_tree right ∷ [])) }
    {
        Ok(Formula::And(pair(alloc, left, right)?))
    }

    /// `and` of any number of formulas.
    #[tactic(auto, using(crate::proofs::Equations::tree_laws))]
    pub fn and(parts: List<Formula>) -> Formula
        ensures { formula_tree result ≡ and_of (map formula_tree parts) }
    {
        Formula::And(parts)
    }

    /// `or` of any number of formulas.
    #[tactic(auto, using(crate::proofs::Equations::tree_laws))]
    pub fn or(parts: List<Formula>) -> Formula
        ensures { formula_tree result ≡ or_of (map formula_tree parts) }
    {
        Formula::Or(parts)
    }

    #[tactic(auto, using(crate::proofs::Equations::tree_laws))]
    pub fn implication(alloc: Global, from: Formula, to: Formula) -> Result<Formula, NoMemory>
        ensures { IfOk result (λ formula. formula_tree formula ≡ imp_of (formula_tree from) (formula_tree to)) }
    {
        let from = Boxed::new(alloc, from)?;
        Ok(Formula::Imp(from, Boxed::new(alloc, to)?))
    }

    /// Whether the formula is `true`.
    #[tactic(auto, using(crate::proofs::Equations::tree_laws))]
    pub fn is_true(&self) -> bool
        ensures { IsTrue result ↔ (formula_tree self.now ≡ true_tree) }
    {
        match self {
            Formula::True => true,
            Formula::False => false,
            Formula::Rel(_, _) => false,
            Formula::Not(_) => false,
            Formula::And(_) => false,
            Formula::Or(_) => false,
            Formula::Imp(_, _) => false,
            Formula::Iff(_, _) => false,
            Formula::Forall(_, _, _, _) => false,
            Formula::Exists(_, _, _, _) => false,
        }
    }
}

impl Goal {
    /// The goal as one formula: `imp` from the `and` of what is known to the check.
    #[tactic(auto, using(crate::proofs::Equations::tree_laws))]
    pub fn formula(&self, alloc: Global) -> Result<Formula, NoMemory>
        ensures { IfOk result (λ formula. formula_tree formula ≡ goal_tree self.now) }
    {
        let known = Formula::And(copy_formulas(&self.known, alloc)?);
        let check = self.check.copy(alloc)?;
        Formula::implication(alloc, known, check)
    }
}
