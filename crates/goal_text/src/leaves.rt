// What may stand where a kid does, and numbers, names and truth values by that.
ghost use Rattle.std.specs.Prelude.{◌≡◌};
ghost use Rattle.qed_terms.specs.View.{term_tree, formula_tree};
ghost use Rattle.qed_terms.specs.WellFormed.{takes_term, formula};
ghost use Rattle.goal_words.specs.Bytes.{after, front, with_rest};
ghost use Rattle.goal_words.specs.Numbers.{number};
ghost use Rattle.goal_text.specs.Reader as spec;
ghost use Rattle.goal_text.specs.Views.{Gives, GivesOne, term_place};

use crate::answer::GoalText;
use goal_words::{is_name, name_sort, number, word};
use qed_terms::{Formula, Sort, Term};
use std::alloc::Global;
use wp_base::Str;

/// What is wanted where a term stands.
#[derive(Clone, Copy)]
pub enum TermPlace {
    Of(Sort),
    /// An argument of a logic function, which is an integer or a memory.
    Argument,
}

/// What is wanted where a kid stands.
#[derive(Clone, Copy)]
pub enum Wanted {
    Term(TermPlace),
    Formula,
}

impl TermPlace {
    /// Whether a term of this sort may stand there.
    pub fn takes(self, sort: Sort) -> bool
        ensures { result ≡ takes_term (term_place self) sort }
    {
        match self {
            TermPlace::Of(wanted) => wanted == sort,
            TermPlace::Argument => sort != Sort::Table,
        }
    }
}

#[tactic(auto, using(qed_terms::proofs::Equations::tree_laws))]
fn named(alloc: Global, sort: Sort, word: &[u8]) -> Result<Term, GoalText>
    ensures { GivesOne term_tree result (spec.named sort word.now) }
{
    if !is_name(word) {
        return Err(GoalText::NotAGoal);
    }
    let name = Str::from_bytes(alloc, word)?;
    Ok(Term::Var(name, sort))
}

#[tactic(auto, using(qed_terms::proofs::Equations::tree_laws))]
fn number_or(alloc: Global, sort: Sort, word: &[u8]) -> Result<Term, GoalText>
    ensures { GivesOne term_tree result (spec.number_or sort (number word.now) word.now) }
{
    match number(word) {
        Some(value) => Ok(Term::Num(value)),
        None => named(alloc, sort, word),
    }
}

// A number or a name.
fn term_leaf(alloc: Global, place: TermPlace, word: &[u8]) -> Result<Term, GoalText>
    ensures { GivesOne term_tree result (spec.leaf (term_place place) word.now) }
{
    match place {
        TermPlace::Of(Sort::Int) => number_or(alloc, Sort::Int, word),
        TermPlace::Of(Sort::Memory) => named(alloc, Sort::Memory, word),
        TermPlace::Of(Sort::Table) => named(alloc, Sort::Table, word),
        TermPlace::Argument => number_or(alloc, name_sort(word), word),
    }
}

#[tactic(auto, using(qed_terms::proofs::Equations::tree_laws))]
fn truth_leaf(word: &[u8]) -> Result<Formula, GoalText>
    ensures { GivesOne formula_tree result (spec.truth_leaf word.now) }
{
    const TRUE: &[u8] = b"true";
    const FALSE: &[u8] = b"false";
    if word == TRUE {
        return Ok(Formula::True);
    }
    if word == FALSE {
        return Ok(Formula::False);
    }
    Err(GoalText::NotAGoal)
}

/// A number or a name at the front.
pub fn leaf(alloc: Global, place: TermPlace, bytes: &[u8]) -> Result<(Term, &[u8]), GoalText>
    ensures { Gives term_tree result (with_rest (after bytes.now) (spec.leaf (term_place place) (front bytes.now))) }
{
    let (found, rest) = word(bytes);
    let term = term_leaf(alloc, place, found)?;
    Ok((term, rest))
}

/// A truth value at the front.
pub fn truth(bytes: &[u8]) -> Result<(Formula, &[u8]), GoalText>
    ensures { Gives formula_tree result (with_rest (after bytes.now) (spec.leaf formula (front bytes.now))) }
{
    let (found, rest) = word(bytes);
    let formula = truth_leaf(found)?;
    Ok((formula, rest))
}
