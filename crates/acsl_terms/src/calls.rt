// Calls of predicates and logic functions (ACSL 2.6): what is called.
ghost use Rattle.std.specs.Prelude.{◌≡◌, IfOk, map, true};
ghost use Rattle.std.specs.Option.{option_copied, option_map};
ghost use Rattle.acsl_names.specs.Names.{view_around};
ghost use Rattle.acsl_names.specs.declared.names.Meaning.TheVariants as meaning;
ghost use Rattle.acsl_names.specs.Weights.{args_of};
ghost use Rattle.acsl_terms.specs.Calls as spec;
ghost use Rattle.acsl_trees.specs.Tree.{view_tree, view_trees};
ghost use Rattle.c_answers.specs.Answers.{Gives};
ghost use Rattle.c_syntax.specs.View.{view_var};

use crate::leaves::{misshapen, sort_of};
use acsl_guards::steps_down;
use acsl_names::{Around, Bound, Definition, Definitions, Meaning};
use acsl_trees::{Head, Sort, Tree};
use c_syntax::{Term, VarDecl};
use std::alloc::Global;
use wp_base::{Line, List, NoMemory, Rule, Stop, Str};

/// What a call of a name with so many arguments is.
#[derive(Clone, Copy)]
pub enum Called {
    /// The name isn't declared.
    Unknown,
    /// It can't be called so; this is the rule that is broken.
    Wrong(Rule),
    /// A call of the definition with this number, which calls itself and isn't expanded.
    Recursive(u32),
    /// A call of the definition with this number, which is expanded.
    Expanded(u32),
}

fn counted_call(number: u32, fits: bool, is_recursive: bool) -> Called
    ensures { result ≡ spec.counted_call number fits is_recursive }
{
    if !fits {
        Called::Wrong(Rule::Typing)
    } else if is_recursive {
        Called::Recursive(number)
    } else {
        Called::Expanded(number)
    }
}

fn sorted_call(is_term: bool, number: u32, count: usize, definition: &Definition) -> Called
    ensures { result ≡ spec.sorted_call is_term number count definition.now }
{
    if definition.result.is_some() != is_term {
        return Called::Wrong(Rule::Shape);
    }
    counted_call(
        number,
        definition.params.len() == count,
        definition.is_recursive,
    )
}

fn called_by(definitions: &Definitions, is_term: bool, count: usize, meaning: Meaning) -> Called
    ensures { result ≡ spec.called_by definitions.now is_term count meaning }
{
    match meaning {
        Meaning::Definition(number) => match definitions.items.get(number as usize) {
            Some(definition) => sorted_call(is_term, number, count, definition),
            None => Called::Wrong(Rule::Shape),
        },
        Meaning::Nothing => Called::Unknown,
        Meaning::Bound(_) => Called::Wrong(Rule::Shape),
        Meaning::Local(_) => Called::Wrong(Rule::Shape),
        Meaning::Global(_) => Called::Wrong(Rule::Shape),
        Meaning::Enumerator(_) => Called::Wrong(Rule::Shape),
        Meaning::Function => Called::Wrong(Rule::Shape),
        Meaning::Typedef => Called::Wrong(Rule::Shape),
    }
}

/// What a name is that stands before so many arguments, as a term or as a predicate.
pub fn called_at(
    around: &Around<'_>,
    bound: &Bound,
    is_term: bool,
    count: usize,
    name: &Str,
) -> Called
    ensures { result ≡ spec.called_at (view_around around.now) bound.now is_term count name.now }
{
    let meaning = match around.definitions.find(name) {
        Meaning::Definition(number) => Meaning::Definition(number),
        _ => around.find(bound, name),
    };
    called_by(around.definitions, is_term, count, meaning)
}

/// What a definition is as a term without arguments.
pub(crate) fn called_alone(around: &Around<'_>, number: u32) -> Called
    ensures { result ≡ spec.called_by (view_around around.now).definitions true 0 (meaning.Definition number) }
{
    called_by(around.definitions, true, 0, Meaning::Definition(number))
}

#[tactic(auto, using(acsl_trees::proofs::Equations::tree_laws))]
pub(crate) fn call_tree(number: u32, args: List<Tree>) -> Tree
    ensures { view_tree result ≡ spec.call_tree number (view_trees args) }
{
    Tree {
        head: Head::Call(number),
        kids: args,
    }
}

fn result_sort(alloc: Global, definition: Option<&Definition>) -> Result<Sort, NoMemory>
    ensures { IfOk result (λ sort. sort ≡ spec.result_sort (option_copied definition.entry)) }
{
    match definition {
        Some(definition) => match &definition.result {
            Some(ty) => sort_of(alloc, ty),
            None => Ok(Sort::Unknown),
        },
        None => Ok(Sort::Unknown),
    }
}

/// What a call is, as a term.
pub(crate) fn sort_called(
    alloc: Global,
    definitions: &Definitions,
    called: Called,
) -> Result<Sort, NoMemory>
    ensures { IfOk result (λ sort. sort ≡ spec.sort_called definitions.now called) }
{
    match called {
        Called::Recursive(number) | Called::Expanded(number) => {
            result_sort(alloc, definitions.items.get(number as usize))
        }
        Called::Unknown | Called::Wrong(_) => Ok(Sort::Unknown),
    }
}

#[tactic(auto, using(crate::proofs::Listed::listed))]
fn goes_down(down: Option<&List<VarDecl>>, args: &List<Term>) -> bool
    ensures { result ≡ spec.goes_down (option_map (map view_var) (option_copied down.entry)) (args_of args.now) }
{
    match down {
        Some(params) => steps_down(params, args),
        None => false,
    }
}

/// The call of a definition that calls itself, or the fault that it may not stand there.
#[tactic(auto, unfolding(crate::specs::Calls::recursion))]
pub(crate) fn recursion(
    around: &Around<'_>,
    line: Line,
    number: u32,
    args: &List<Term>,
    values: List<Tree>,
) -> Result<Tree, Stop>
    ensures { Gives view_tree result (spec.recursion (view_around around.now) line number (args_of args.now) (view_trees values)) }
{
    if around.itself == Some(number) && !goes_down(around.down, args) {
        return Err(misshapen(line));
    }
    Ok(call_tree(number, values))
}
