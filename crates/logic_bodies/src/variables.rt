// Names in bodies: parameters, and variables of the file.
ghost use Rattle.std.specs.Prelude.{◌≡◌, Some, map, option_map, IfOk};
ghost use Rattle.acsl_encode.specs.Encode as encode;
ghost use Rattle.acsl_encode.specs.Readings as readings;
ghost use Rattle.acsl_encode.specs.Setting.{names_of, slot_in, terms_named};
ghost use Rattle.acsl_encode.specs.Told as told;
ghost use Rattle.acsl_trees.specs.declared.heads.Content.TheVariants as content;
ghost use Rattle.annotation_heads.specs.View.{view_terms};
ghost use Rattle.annotation_words.specs.View.{view_global, view_named};
ghost use Rattle.logic_bodies.specs.Bodies as spec;
ghost use Rattle.logic_bodies.specs.View.{lent_global, reading_in};
ghost use Rattle.qed_terms.specs.Tree.{var};
ghost use Rattle.qed_terms.specs.View.{term_tree};
ghost use Rattle.wp_base.specs.declared.kinds.Kind.{Kind};

use crate::readings::BodyReading;
use acsl_trees::Content;
use annotation_heads::{Pointer, Terms};
use annotation_words::{GlobalName, Named};
use qed_terms::{Sort, Term};
use std::alloc::Global;
use wp_base::{NoMemory, Str};

/// The name of an integer, as a term.
#[tactic(auto, using(qed_terms::proofs::Equations::tree_laws))]
pub fn name_term(alloc: Global, name: &Str) -> Result<Term, NoMemory>
    ensures { IfOk result (λ term. term_tree term ≡ var name.now) }
{
    let name = name.copy(alloc)?;
    Ok(Term::Var(name, Sort::Int))
}

fn pointer_named(alloc: Global, block: &Str, offset: &Str) -> Result<Terms, NoMemory>
    ensures { IfOk result (λ terms. view_terms terms ≡ readings.address (var block.now) (var offset.now)) }
{
    let block = name_term(alloc, block)?;
    let offset = name_term(alloc, offset)?;
    Ok(Terms::Address(Pointer { block, offset }))
}

// What a parameter stands for.
fn terms_named(alloc: Global, parameter: &Named) -> Result<Terms, NoMemory>
    ensures { IfOk result (λ terms. view_terms terms ≡ terms_named (view_named parameter.now)) }
{
    match parameter {
        Named::Integer(name) => {
            let term = name_term(alloc, name)?;
            Ok(Terms::Integer(None, term))
        }
        Named::Pointer(block, offset) => pointer_named(alloc, block, offset),
    }
}

/// What the name with a number stands for.
#[tactic(auto, using(crate::proofs::Naming::name_laws))]
pub(crate) fn named(alloc: Global, params: &[Named], name: u32) -> Result<Terms, NoMemory>
    ensures { IfOk result (λ terms. view_terms terms ≡ names_of (map view_named params.now) name) }
{
    let at = name as usize;
    if at < params.len() {
        terms_named(alloc, &params[at])
    } else {
        Ok(Terms::Nothing)
    }
}

// ---- variables of the file

/// The number of a variable.
pub(crate) fn number_of(global: &GlobalName) -> u32
    ensures { result ≡ told.number_of (view_global global.now) }
{
    match global {
        GlobalName::Integer(number, _, _) => *number,
        GlobalName::Pointer(number, _, _) => *number,
    }
}

/// The variable with a number.
#[tactic(auto, using(crate::proofs::Naming::found_laws))]
pub(crate) fn global_at(globals: &[GlobalName], number: u32) -> Option<&GlobalName>
    ensures { option_map lent_global result ≡ spec.found_in (map view_global globals.now) number }
{
    for at in 0..globals.len() {
        let own = number_of(&globals[at]);
        if own == number {
            return Some(&globals[at]);
        }
    }
    None
}

// What an integer variable holds; that of a pointer holds none.
fn held(alloc: Global, global: &GlobalName) -> Result<Terms, NoMemory>
    ensures { (k : Kind) → IfOk result (λ terms. view_terms terms ≡ encode.held (content.Integer k) (spec.slot_of (Some (view_global global.now)))) }
{
    match global {
        GlobalName::Integer(_, kind, name) => {
            let term = name_term(alloc, name)?;
            Ok(Terms::Integer(Some(*kind), term))
        }
        GlobalName::Pointer(_, _, _) => Ok(Terms::Nothing),
    }
}

fn variable_read(alloc: Global, globals: &[GlobalName], number: u32) -> Result<Terms, NoMemory>
    ensures { (k : Kind) → IfOk result (λ terms. view_terms terms ≡ encode.held (content.Integer k) (slot_in (map view_global globals.now) number)) }
{
    let Some(global) = global_at(globals, number) else {
        return Ok(Terms::Nothing);
    };
    let terms = held(alloc, global)?;
    Ok(terms)
}

/// The integer in a variable of the file.
pub(crate) fn read_by(
    alloc: Global,
    reading: BodyReading,
    content: Content,
    variable: Option<u32>,
) -> Result<Terms, NoMemory>
    ensures { IfOk result (λ terms. view_terms terms ≡ spec.read_by (reading_in reading.entry) content variable) }
{
    match content {
        Content::Integer(_) => match variable {
            Some(number) => variable_read(alloc, reading.globals, number),
            None => Ok(Terms::Nothing),
        },
        Content::Pointer => Ok(Terms::Nothing),
        Content::Struct(_) => Ok(Terms::Nothing),
    }
}
