// The annotations of a function: its contract, and what stands in its body (ACSL 2.3, 2.4).
ghost use Rattle.std.specs.Prelude.{◌≡◌, IfOk, OnOk, map, Some};
ghost use Rattle.std.specs.Option.{option_copied, option_map};
ghost use Rattle.acsl_clauses.specs.Items.{view_item};
ghost use Rattle.acsl_clauses.specs.Typed.{view_clause};
ghost use Rattle.acsl_names.specs.Names.{view_around};
ghost use Rattle.acsl_notes.specs.Notes.{view_note};
ghost use Rattle.acsl_typing.specs.Annotations as spec;
ghost use Rattle.c_answers.specs.Answers.{Gives};
ghost use Rattle.c_syntax.specs.View.{view_contract};
ghost use Rattle.typed_unit.specs.View.{view_body, view_typed};

use crate::annotations::{Annotating, Annotation};
use crate::sites::{before_of, result_of};
use acsl_clauses::{Item, TypedClause, contract_items, typed_contract};
use acsl_names::{Around, Site, Within};
use acsl_notes::{Enclosing, Note, body_noted, params_scope};
use acsl_terms::misshapen;
use c_scopes::{File, Object, Signature};
use c_syntax::Contract;
use std::alloc::Global;
use typed_unit::{Body, Typed};
use wp_base::{List, NoMemory, Stop};

/// A declaration of a function: what the file declares before it, its number, its parameters, its contract, and whether its body stands here.
#[derive(Clone, Copy)]
pub(crate) struct Declared<'a> {
    pub(crate) names: u32,
    pub(crate) tags: u32,
    pub(crate) number: u32,
    pub(crate) params: &'a [Object],
    pub(crate) contract: &'a Contract,
    pub(crate) has_body: bool,
}

// ---- contracts

fn second(alloc: Global, items: &[Item<'_>]) -> Result<List<TypedClause>, Stop>
    ensures { Gives (map view_clause) result (spec.second (map view_item items.now)) }
{
    if items.len() == 0 {
        return Ok(List::new(alloc));
    }
    Err(misshapen(items[0].line()))
}

fn contract_checked(
    alloc: Global,
    around: &Around<'_>,
    has_one: bool,
    contract: &Contract,
) -> Result<List<TypedClause>, Stop>
    ensures { Gives (map view_clause) result (spec.contract_checked (view_around around.now) has_one (view_contract contract.now)) }
{
    if has_one {
        let items = contract_items(alloc, contract)?;
        second(alloc, items.as_slice())
    } else {
        typed_contract(alloc, around, contract)
    }
}

fn has_contract(so_far: &Annotating, number: u32) -> bool
    ensures { result ≡ spec.has_contract (spec.view_annotating so_far.now) number }
{
    let place = number as usize;
    if place < so_far.contracted.len() {
        so_far.contracted[place]
    } else {
        false
    }
}

fn clauses_of(
    alloc: Global,
    typed: &Typed<'_>,
    so_far: &Annotating,
    declared: Declared<'_>,
) -> Result<List<TypedClause>, Stop>
    ensures { Gives (map view_clause) result (spec.contract_of (view_typed typed.now) (spec.view_annotating so_far.now) declared.entry.names declared.entry.tags declared.entry.number declared.entry.params.now (view_contract declared.entry.contract.now)) }
{
    let blocks = params_scope(alloc, declared.params)?;
    let gives = result_of(alloc, &typed.file, declared.number)?;
    let within = Within {
        objects: declared.params,
        params: declared.params.len(),
        result: &gives,
    };
    let before = before_of(
        typed,
        so_far.sizes.as_slice(),
        declared.names,
        declared.tags,
    );
    let around = before.around(&so_far.definitions, &blocks, within, Site::Contract, None);
    let has_one = has_contract(so_far, declared.number);
    contract_checked(alloc, &around, has_one, declared.contract)
}

// ---- bodies

#[tactic(auto, using(crate::proofs::Parts::body_at))]
fn next_body<'a, 'b>(
    typed: &'a Typed<'b>,
    so_far: &Annotating,
    has_body: bool,
) -> Option<&'a Body<'b>>
    ensures { option_map view_body (option_copied result) ≡ spec.next_body (view_typed typed.now) (spec.view_annotating so_far.now) has_body }
{
    if has_body {
        typed.bodies.get(so_far.bodies)
    } else {
        None
    }
}

fn is_declared(file: &File, names: u32, function: Option<&Signature>) -> bool
    ensures { result ≡ spec.is_declared_among file.now names (option_copied function.entry) }
{
    match function {
        Some(function) => file
            .names
            .find_among(names as usize, &function.name)
            .is_some(),
        None => true,
    }
}

// How many names the file declares before what stands in a body; the function itself is one of them.
fn names_inside(file: &File, names: u32, number: u32) -> Result<u32, NoMemory>
    ensures { IfOk result (λ inside. inside ≡ spec.names_inside file.now names number) }
{
    if is_declared(file, names, file.functions.get(number as usize)) {
        Ok(names)
    } else {
        names.checked_add(1).ok_or(NoMemory)
    }
}

fn notes_in(
    alloc: Global,
    typed: &Typed<'_>,
    so_far: &Annotating,
    declared: Declared<'_>,
    body: &Body<'_>,
) -> Result<List<Note>, Stop>
    ensures { Gives (map view_note) result (spec.notes_in (view_typed typed.now) (spec.view_annotating so_far.now) declared.entry.names declared.entry.tags declared.entry.number declared.entry.params.now (Some (view_body body.now))) }
{
    let blocks = params_scope(alloc, declared.params)?;
    let gives = result_of(alloc, &typed.file, declared.number)?;
    let within = Within {
        objects: body.locals.as_slice(),
        params: declared.params.len(),
        result: &gives,
    };
    let names = names_inside(&typed.file, declared.names, declared.number)?;
    let enclosing = Enclosing {
        before: before_of(typed, so_far.sizes.as_slice(), names, declared.tags),
        definitions: &so_far.definitions,
        within,
    };
    body_noted(alloc, enclosing, blocks, &body.stmt)
}

fn notes_of(
    alloc: Global,
    typed: &Typed<'_>,
    so_far: &Annotating,
    declared: Declared<'_>,
) -> Result<List<Note>, Stop>
    ensures { Gives (map view_note) result (spec.notes_of (view_typed typed.now) (spec.view_annotating so_far.now) declared.entry.names declared.entry.tags declared.entry.number declared.entry.params.now declared.entry.has_body) }
{
    match next_body(typed, so_far, declared.has_body) {
        Some(body) => notes_in(alloc, typed, so_far, declared, body),
        None => Ok(List::new(alloc)),
    }
}

// ---- both

fn mark(contracted: &mut Vec<bool>, number: u32, clauses: &List<TypedClause>)
    ensures { contracted.new.items ≡ spec.marked (map view_clause clauses.now) number contracted.old.items }
{
    let place = number as usize;
    if clauses.len() > 0 && place < contracted.len() {
        contracted[place] = true;
    }
}

fn bodies_behind(has_body: bool, bodies: usize) -> Result<usize, NoMemory>
    ensures { IfOk result (λ count. count ≡ spec.bodies_behind has_body bodies) }
{
    if has_body {
        bodies.checked_add(1).ok_or(NoMemory)
    } else {
        Ok(bodies)
    }
}

fn put_function(
    so_far: &mut Annotating,
    number: u32,
    has_body: bool,
    clauses: List<TypedClause>,
    notes: List<Note>,
) -> Result<(), NoMemory>
    ensures { OnOk result (spec.view_annotating so_far.new ≡ spec.with_function (spec.view_annotating so_far.old) number has_body (map view_clause clauses) (map view_note notes)) }
{
    mark(&mut so_far.contracted, number, &clauses);
    so_far.bodies = bodies_behind(has_body, so_far.bodies)?;
    so_far.items.push(Annotation::Function(clauses, notes))?;
    Ok(())
}

/// The annotations of a function behind those so far, or the first fault in them.
#[tactic(auto, using(c_answers::proofs::After::after_laws))]
pub(crate) fn function_annotated(
    alloc: Global,
    typed: &Typed<'_>,
    so_far: &mut Annotating,
    declared: Declared<'_>,
) -> Result<(), Stop>
    ensures { Gives (λ _. spec.view_annotating so_far.new) result (spec.function_annotated (view_typed typed.now) (spec.view_annotating so_far.old) declared.entry.names declared.entry.tags declared.entry.number declared.entry.params.now (view_contract declared.entry.contract.now) declared.entry.has_body) }
{
    let clauses = clauses_of(alloc, typed, so_far, declared)?;
    let notes = notes_of(alloc, typed, so_far, declared)?;
    put_function(so_far, declared.number, declared.has_body, clauses, notes)?;
    Ok(())
}
