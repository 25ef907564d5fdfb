// Calls of logic functions that call themselves (ACSL 2.6.3): the arguments, and the variables of the file that they read.
ghost use Rattle.std.specs.Prelude.{◌≡◌, ◌∷◌, [], Some, None, map, IfOk, if◌then◌else◌};
ghost use Rattle.std.specs.Option.{option_map};
ghost use Rattle.acsl_encode.specs.Encode as spec;
ghost use Rattle.annotation_heads.specs.Gathered.{given_if};
ghost use Rattle.annotation_heads.specs.View.{view_terms};
ghost use Rattle.annotation_words.specs.View.{called_in, slot_with, view_called, view_global, view_named, view_reading, view_seen};
ghost use Rattle.program_trees.specs.View.{view_facts};
ghost use Rattle.typed_prog.specs.declared.operators.Variable.TheVariants as variables;
ghost use Rattle.qed_terms.specs.Tree.{Tree};
ghost use Rattle.qed_terms.specs.View.{term_tree};

use crate::readings::{Called, GlobalName, Named, Reading, Seen};
use crate::slots::{Held, slot_of};
use annotation_heads::{Pointer, Terms, holds_all};
use c_kinds::Machdep;
use program_trees::Facts;
use qed_terms::Term;
use std::alloc::Global;
use typed_prog::Variable;
use wp_base::{Kind, List, NoMemory, Str};

// ---- arguments

// An integer, put behind what is given.
#[tactic(auto, using(crate::proofs::Calls_given::argument_laws))]
fn integer_argument(alloc: Global, kid: Terms, given: &mut List<Term>) -> Result<bool, NoMemory>
    ensures { IfOk result (λ there. given_if there (map term_tree given.new) ≡ spec.put (Some (map term_tree given.old)) (option_map (λ u. u ∷ []) (spec.as_integer (view_terms kid)))) }
{
    let Some(term) = kid.into_integer(alloc)? else {
        return Ok(false);
    };
    given.push(term)?;
    Ok(true)
}

// The block and the offset of a pointer, put behind what is given.
#[tactic(auto, using(crate::proofs::Calls_given::argument_laws))]
fn pointer_argument(kid: Terms, given: &mut List<Term>) -> Result<bool, NoMemory>
    ensures { IfOk result (λ there. given_if there (map term_tree given.new) ≡ spec.put (Some (map term_tree given.old)) (option_map spec.two_parts (spec.as_pointer (view_terms kid)))) }
{
    let Some(pointer) = kid.into_pointer() else {
        return Ok(false);
    };
    let Pointer { block, offset } = pointer;
    given.push(block)?;
    given.push(offset)?;
    Ok(true)
}

fn argument(
    alloc: Global,
    parameter: &Named,
    kid: Terms,
    given: &mut List<Term>,
) -> Result<bool, NoMemory>
    ensures { IfOk result (λ there. given_if there (map term_tree given.new) ≡ spec.put (Some (map term_tree given.old)) (spec.argument (view_named parameter.now) (view_terms kid))) }
{
    match parameter {
        Named::Integer(_) => integer_argument(alloc, kid, given),
        Named::Pointer(_, _) => pointer_argument(kid, given),
    }
}

#[tactic(auto, using(crate::proofs::Calls_given::arguments_turn, crate::proofs::Calls_given::arguments_stop, crate::proofs::Calls_given::arguments_end, crate::proofs::Calls_given::arguments_differ))]
fn arguments(
    alloc: Global,
    parameters: &[Named],
    kids: &[Terms],
    given: &mut List<Term>,
) -> Result<bool, NoMemory>
    ensures { IfOk result (λ there. given_if there (map term_tree given.new) ≡ spec.put (Some (map term_tree given.old)) (spec.arguments (map view_named parameters.now) (map view_terms kids.now))) }
{
    if parameters.len() != kids.len() {
        return Ok(false);
    }
    for at in 0..parameters.len() {
        let kid = kids[at].copy(alloc)?;
        let there = argument(alloc, &parameters[at], kid, given)?;
        if !there {
            return Ok(false);
        }
    }
    Ok(true)
}

// ---- variables of the file

// Whether an integer of the second kind, or of any size, is one of the first kind.
fn is_one_of(model: Machdep, kind: Kind, own: Option<Kind>) -> bool
    ensures { (t : Tree) → spec.integer_of model kind (slot_with own t) ≡ (if result then Some (t ∷ []) else None) }
{
    match own {
        Some(own) => holds_all(model, kind, own),
        None => false,
    }
}

#[tactic(auto, using(crate::proofs::Calls_given::variable_laws))]
fn variable_given(
    alloc: Global,
    facts: &Facts,
    seen: Seen,
    number: u32,
    kind: Kind,
    given: &mut List<Term>,
) -> Result<bool, NoMemory>
    ensures { IfOk result (λ there. given_if there (map term_tree given.new) ≡ spec.put (Some (map term_tree given.old)) (spec.integer_of facts.now.model kind ((view_seen (view_facts facts.now) seen.entry).variable (variables.Global number)))) }
{
    let Some(slot) = slot_of(alloc, facts, seen, Variable::Global(number))? else {
        return Ok(false);
    };
    let Held { kind: own, term } = slot;
    if is_one_of(facts.model, kind, own) {
        given.push(term)?;
        return Ok(true);
    }
    Ok(false)
}

// A variable of the file that is an integer; there are no pointers in slots.
#[tactic(auto, using(crate::proofs::Calls_given::no_pointer))]
fn global_given(
    alloc: Global,
    facts: &Facts,
    seen: Seen,
    global: &GlobalName,
    given: &mut List<Term>,
) -> Result<bool, NoMemory>
    ensures { IfOk result (λ there. given_if there (map term_tree given.new) ≡ spec.put (Some (map term_tree given.old)) (spec.global_of facts.now.model (view_seen (view_facts facts.now) seen.entry) (view_global global.now))) }
{
    match global {
        GlobalName::Integer(number, kind, _) => {
            let there = variable_given(alloc, facts, seen, *number, *kind, given)?;
            Ok(there)
        }
        GlobalName::Pointer(_, _, _) => Ok(false),
    }
}

#[tactic(auto, using(crate::proofs::Calls_given::globals_turn, crate::proofs::Calls_given::globals_stop, crate::proofs::Calls_given::globals_end))]
fn globals_given(
    alloc: Global,
    facts: &Facts,
    seen: Seen,
    globals: &[GlobalName],
    given: &mut List<Term>,
) -> Result<bool, NoMemory>
    ensures { IfOk result (λ there. given_if there (map term_tree given.new) ≡ spec.put (Some (map term_tree given.old)) (spec.all_put (spec.global_of facts.now.model (view_seen (view_facts facts.now) seen.entry)) (map view_global globals.now))) }
{
    for global in globals {
        let there = global_given(alloc, facts, seen, global, given)?;
        if !there {
            return Ok(false);
        }
    }
    Ok(true)
}

// ---- calls

// All that a function is given. There are no memories.
#[tactic(auto, using(crate::proofs::Calls_given::given_laws))]
fn all_given(
    alloc: Global,
    reading: Reading,
    function: &Called,
    kids: &[Terms],
    given: &mut List<Term>,
) -> Result<bool, NoMemory>
    ensures { IfOk result (λ there. given_if there (map term_tree given.new) ≡ spec.put (Some (map term_tree given.old)) (spec.all_given (view_reading reading.entry) (view_called function.now) (map view_terms kids.now))) }
{
    let there = arguments(alloc, function.params.as_slice(), kids, given)?;
    if !there {
        return Ok(false);
    }
    if function.memories.len() > 0 {
        return Ok(false);
    }
    let there = globals_given(
        alloc,
        reading.facts,
        reading.here,
        function.globals.as_slice(),
        given,
    )?;
    Ok(there)
}

#[tactic(auto, using(qed_terms::proofs::Equations::tree_laws))]
fn application(alloc: Global, name: &Str, given: List<Term>) -> Result<Term, NoMemory>
    ensures { IfOk result (λ term. term_tree term ≡ spec.app name.now (map term_tree given)) }
{
    let name = name.copy(alloc)?;
    Ok(Term::App(name, given))
}

#[tactic(auto, using(crate::proofs::Calls_given::applied_laws))]
fn applied(
    alloc: Global,
    reading: Reading,
    function: &Called,
    kids: &[Terms],
) -> Result<Terms, NoMemory>
    ensures { IfOk result (λ made. view_terms made ≡ spec.called (view_reading reading.entry) (Some (view_called function.now)) (map view_terms kids.now)) }
{
    let mut given = List::new(alloc);
    let there = all_given(alloc, reading, function, kids, &mut given)?;
    if !there {
        return Ok(Terms::Nothing);
    }
    let term = application(alloc, &function.name, given)?;
    Ok(Terms::Integer(None, term))
}

/// A call of the logic function with this number.
#[tactic(auto, using(crate::proofs::Calls_given::called_laws))]
pub fn called(
    alloc: Global,
    reading: Reading,
    number: u32,
    kids: &List<Terms>,
) -> Result<Terms, NoMemory>
    ensures { IfOk result (λ made. view_terms made ≡ spec.called (view_reading reading.entry) (called_in reading.entry.called.now number) (map view_terms kids.now)) }
{
    let at = number as usize;
    if at >= reading.called.len() {
        return Ok(Terms::Nothing);
    }
    match &reading.called[at] {
        Some(function) => {
            let made = applied(alloc, reading, function, kids.as_slice())?;
            Ok(made)
        }
        None => Ok(Terms::Nothing),
    }
}
