// What doesn't change in the walk of a function, and where a statement stands.
ghost use Rattle.std.specs.Prelude.{◌≡◌, suc, IfOk};
ghost use Rattle.acsl_trees.specs.Tree.{view_tree};
ghost use Rattle.annotation_words.specs.View.{called_in};
ghost use Rattle.program_steps.specs.Terms as terms;

use acsl_trees::Tree;
use annotation_words::Called;
use core_trees::FunctionVariable;
use program_trees::{Contract, Facts};
use wp_base::{CellKind, List, NoMemory, Str};

/// What isn't known of a program without its text.
pub trait Texts {
    /// The names of binders, and how logic functions are called.
    ghost text: { Self → terms.Texts };

    /// The names of an annotation's binders as they are spelled.
    fn binders<'a>(&'a self, tree: &Tree) -> &'a [Str]
        ensures { result.now ≡ (text self.now).binders (view_tree tree.now) };

    /// How logic functions that call themselves are called, by their numbers.
    fn called<'a>(&'a self) -> &'a [Option<Called>]
        ensures { called_in result.now ≡ (text self.now).called };
}

/// A function that is walked.
#[derive(Clone, Copy)]
pub struct Frame<'a> {
    /// The base names of its slots.
    pub bases: &'a List<Str>,
    pub facts: &'a Facts,
    pub variables: &'a List<FunctionVariable>,
    pub result: Option<CellKind>,
    pub contract: &'a Contract,
    /// Its number.
    pub number: u32,
    /// How many temporaries it has.
    pub temporaries: usize,
}

/// The set in force: the clauses of the function, or those of a loop, which finds so many variables declared.
#[derive(Clone, Copy)]
pub enum Force<'a> {
    OfFunction,
    OfLoop(&'a List<Tree>, u32),
}

/// Where a statement stands: which of the remembered states, the last one being 0, are the function's entry and that of the innermost loop; and the set in
/// force.
#[derive(Clone, Copy)]
pub struct Point<'a> {
    pub entry: usize,
    pub loop_entry: usize,
    pub force: Force<'a>,
}

/// With one more state that is remembered.
pub fn next_level(level: usize) -> Result<usize, NoMemory>
    ensures { IfOk result (λ next. next ≡ suc level) }
{
    level.checked_add(1).ok_or(NoMemory)
}
