// Calls of logic functions in bodies (ACSL 2.6.3): the arguments, and the variables of the file that the function is given itself.
ghost use Rattle.std.specs.Prelude.{◌≡◌, ◌∷◌, [], Some, None, map, IfOk, option_map};
ghost use Rattle.acsl_encode.specs.Encode as spec;
ghost use Rattle.acsl_encode.specs.Setting.{slot_in};
ghost use Rattle.annotation_heads.specs.Gathered.{given_if};
ghost use Rattle.annotation_heads.specs.View.{view_terms};
ghost use Rattle.annotation_words.specs.View.{called_in, view_called, view_global, view_named};
ghost use Rattle.logic_bodies.specs.Bodies as bodies;
ghost use Rattle.logic_bodies.specs.View.{globals_in, known_in, reading_in};
ghost use Rattle.qed_terms.specs.Tree.{var};
ghost use Rattle.qed_terms.specs.View.{term_tree};

use crate::readings::BodyReading;
use crate::variables::{global_at, name_term, number_of};
use annotation_heads::{Pointer, Terms, holds_all};
use annotation_words::{Called, GlobalName, Named};
use c_kinds::Machdep;
use qed_terms::Term;
use std::alloc::Global;
use wp_base::{Kind, List, NoMemory, Str};

// ---- arguments

// An integer, put behind what is given.
#[tactic(auto, using(annotation_words::proofs::Calls_given::argument_laws))]
fn integer_argument(alloc: Global, kid: Terms, given: &mut List<Term>) -> Result<bool, NoMemory>
    ensures { IfOk result (λ there. given_if there (map term_tree given.new) ≡ spec.put (Some (map term_tree given.old)) (option_map (λ u. u ∷ []) (spec.as_integer (view_terms kid)))) }
{
    let Some(term) = kid.into_integer(alloc)? else {
        return Ok(false);
    };
    given.push(term)?;
    Ok(true)
}

// The block and the offset of a pointer, put behind what is given.
#[tactic(auto, using(annotation_words::proofs::Calls_given::argument_laws))]
fn pointer_argument(kid: Terms, given: &mut List<Term>) -> Result<bool, NoMemory>
    ensures { IfOk result (λ there. given_if there (map term_tree given.new) ≡ spec.put (Some (map term_tree given.old)) (option_map spec.two_parts (spec.as_pointer (view_terms kid)))) }
{
    let Some(pointer) = kid.into_pointer() else {
        return Ok(false);
    };
    let Pointer { block, offset } = pointer;
    given.push(block)?;
    given.push(offset)?;
    Ok(true)
}

fn argument(
    alloc: Global,
    parameter: &Named,
    kid: Terms,
    given: &mut List<Term>,
) -> Result<bool, NoMemory>
    ensures { IfOk result (λ there. given_if there (map term_tree given.new) ≡ spec.put (Some (map term_tree given.old)) (spec.argument (view_named parameter.now) (view_terms kid))) }
{
    match parameter {
        Named::Integer(_) => integer_argument(alloc, kid, given),
        Named::Pointer(_, _) => pointer_argument(kid, given),
    }
}

#[tactic(auto, using(annotation_words::proofs::Calls_given::arguments_turn, annotation_words::proofs::Calls_given::arguments_stop, annotation_words::proofs::Calls_given::arguments_end, annotation_words::proofs::Calls_given::arguments_differ))]
fn arguments(
    alloc: Global,
    parameters: &[Named],
    kids: &[Terms],
    given: &mut List<Term>,
) -> Result<bool, NoMemory>
    ensures { IfOk result (λ there. given_if there (map term_tree given.new) ≡ spec.put (Some (map term_tree given.old)) (spec.arguments (map view_named parameters.now) (map view_terms kids.now))) }
{
    if parameters.len() != kids.len() {
        return Ok(false);
    }
    for at in 0..parameters.len() {
        let kid = kids[at].copy(alloc)?;
        let there = argument(alloc, &parameters[at], kid, given)?;
        if !there {
            return Ok(false);
        }
    }
    Ok(true)
}

// ---- variables of the file

// The name of a variable that is given, put behind what is given.
#[tactic(auto, using(crate::proofs::Given::name_put))]
fn put_name(alloc: Global, name: &Str, given: &mut List<Term>) -> Result<bool, NoMemory>
    ensures { IfOk result (λ there. given_if there (map term_tree given.new) ≡ spec.put (Some (map term_tree given.old)) (Some (var name.now ∷ []))) }
{
    let term = name_term(alloc, name)?;
    given.push(term)?;
    Ok(true)
}

#[tactic(auto, using(crate::proofs::Given::names_put))]
fn put_names(
    alloc: Global,
    block: &Str,
    offset: &Str,
    given: &mut List<Term>,
) -> Result<bool, NoMemory>
    ensures { IfOk result (λ there. given_if there (map term_tree given.new) ≡ spec.put (Some (map term_tree given.old)) (Some (var block.now ∷ var offset.now ∷ []))) }
{
    let block = name_term(alloc, block)?;
    let offset = name_term(alloc, offset)?;
    given.push(block)?;
    given.push(offset)?;
    Ok(true)
}

// An integer of a kind that holds the variable's kind.
fn integer_given(
    alloc: Global,
    model: Machdep,
    kind: Kind,
    own: &GlobalName,
    given: &mut List<Term>,
) -> Result<bool, NoMemory>
    ensures { IfOk result (λ there. given_if there (map term_tree given.new) ≡ spec.put (Some (map term_tree given.old)) (spec.integer_of model kind (bodies.slot_of (Some (view_global own.now))))) }
{
    match own {
        GlobalName::Integer(_, own, name) => {
            if holds_all(model, kind, *own) {
                put_name(alloc, name, given)
            } else {
                Ok(false)
            }
        }
        GlobalName::Pointer(_, _, _) => Ok(false),
    }
}

fn pointer_given(alloc: Global, own: &GlobalName, given: &mut List<Term>) -> Result<bool, NoMemory>
    ensures { IfOk result (λ there. given_if there (map term_tree given.new) ≡ spec.put (Some (map term_tree given.old)) (spec.pointer_in (bodies.slot_of (Some (view_global own.now))))) }
{
    match own {
        GlobalName::Integer(_, _, _) => Ok(false),
        GlobalName::Pointer(_, block, offset) => put_names(alloc, block, offset, given),
    }
}

// What a function wants of a variable, of which this is what the body is given.
fn wanted_given(
    alloc: Global,
    model: Machdep,
    wanted: &GlobalName,
    own: &GlobalName,
    given: &mut List<Term>,
) -> Result<bool, NoMemory>
    ensures { IfOk result (λ there. given_if there (map term_tree given.new) ≡ spec.put (Some (map term_tree given.old)) (bodies.wanted model (view_global wanted.now) (bodies.slot_of (Some (view_global own.now))))) }
{
    match wanted {
        GlobalName::Integer(_, kind, _) => integer_given(alloc, model, *kind, own, given),
        GlobalName::Pointer(_, _, _) => pointer_given(alloc, own, given),
    }
}

fn global_given(
    alloc: Global,
    reading: BodyReading,
    wanted: &GlobalName,
    given: &mut List<Term>,
) -> Result<bool, NoMemory>
    ensures { IfOk result (λ there. given_if there (map term_tree given.new) ≡ spec.put (Some (map term_tree given.old)) (spec.global_of (reading_in reading.entry).common.model (reading_in reading.entry).here (view_global wanted.now))) }
{
    let Some(own) = global_at(reading.globals, number_of(wanted)) else {
        return Ok(false);
    };
    wanted_given(alloc, reading.facts.model, wanted, own, given)
}

#[tactic(auto, using(annotation_words::proofs::Calls_given::globals_turn, annotation_words::proofs::Calls_given::globals_stop, annotation_words::proofs::Calls_given::globals_end))]
fn globals_given(
    alloc: Global,
    reading: BodyReading,
    globals: &[GlobalName],
    given: &mut List<Term>,
) -> Result<bool, NoMemory>
    ensures { IfOk result (λ there. given_if there (map term_tree given.new) ≡ spec.put (Some (map term_tree given.old)) (spec.all_put (spec.global_of (reading_in reading.entry).common.model (reading_in reading.entry).here) (map view_global globals.now))) }
{
    for global in globals {
        let there = global_given(alloc, reading, global, given)?;
        if !there {
            return Ok(false);
        }
    }
    Ok(true)
}

// ---- calls

// All that a function is given. There are no memories.
#[tactic(auto, using(crate::proofs::Given::given_laws))]
fn all_given(
    alloc: Global,
    reading: BodyReading,
    function: &Called,
    kids: &[Terms],
    given: &mut List<Term>,
) -> Result<bool, NoMemory>
    ensures { IfOk result (λ there. given_if there (map term_tree given.new) ≡ spec.put (Some (map term_tree given.old)) (spec.all_given (reading_in reading.entry) (view_called function.now) (map view_terms kids.now))) }
{
    let there = arguments(alloc, function.params.as_slice(), kids, given)?;
    if !there {
        return Ok(false);
    }
    if function.memories.len() > 0 {
        return Ok(false);
    }
    let there = globals_given(alloc, reading, function.globals.as_slice(), given)?;
    Ok(there)
}

#[tactic(auto, using(qed_terms::proofs::Equations::tree_laws))]
fn application(alloc: Global, name: &Str, given: List<Term>) -> Result<Term, NoMemory>
    ensures { IfOk result (λ term. term_tree term ≡ spec.app name.now (map term_tree given)) }
{
    let name = name.copy(alloc)?;
    Ok(Term::App(name, given))
}

#[tactic(auto, using(annotation_words::proofs::Calls_given::applied_laws))]
fn applied(
    alloc: Global,
    reading: BodyReading,
    function: &Called,
    kids: &[Terms],
) -> Result<Terms, NoMemory>
    ensures { IfOk result (λ made. view_terms made ≡ spec.called (reading_in reading.entry) (Some (view_called function.now)) (map view_terms kids.now)) }
{
    let mut given = List::new(alloc);
    let there = all_given(alloc, reading, function, kids, &mut given)?;
    if !there {
        return Ok(Terms::Nothing);
    }
    let term = application(alloc, &function.name, given)?;
    Ok(Terms::Integer(None, term))
}

/// A call of the logic function with a number.
#[tactic(auto, using(annotation_words::proofs::Calls_given::called_laws))]
pub(crate) fn called(
    alloc: Global,
    reading: BodyReading,
    number: u32,
    kids: &List<Terms>,
) -> Result<Terms, NoMemory>
    ensures { IfOk result (λ made. view_terms made ≡ spec.called (reading_in reading.entry) (known_in reading.entry number) (map view_terms kids.now)) }
{
    let at = number as usize;
    if at >= reading.called.len() {
        return Ok(Terms::Nothing);
    }
    match &reading.called[at] {
        Some(function) => {
            let made = applied(alloc, reading, function, kids.as_slice())?;
            Ok(made)
        }
        None => Ok(Terms::Nothing),
    }
}
