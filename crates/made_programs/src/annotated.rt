// Which annotations are those of a function.
ghost use Rattle.std.specs.Prelude.{◌≡◌, ◌++◌, IfOk, OnOk, map, slice_get};
ghost use Rattle.std.specs.Option.{option_map};
ghost use Rattle.acsl_clauses.specs.Typed.{view_clause};
ghost use Rattle.acsl_typing.specs.Annotations.{view_annotation};
ghost use Rattle.c_programs.specs.Files as spec;
ghost use Rattle.made_programs.specs.Texts.{all_notes, some_notes, text_by, view_text};
ghost use Rattle.typed_unit.specs.View.{view_annotated, view_body, view_part};

use acsl_clauses::TypedClause;
use acsl_notes::Note;
use acsl_typing::Annotation;
use std::alloc::Global;
use typed_unit::{Annotated, Body, Part};
use wp_base::NoMemory;

/// A body, and the annotations in it.
#[derive(Clone, Copy)]
pub struct Text<'a, 'b, 'n> {
    pub body: &'a Body<'b>,
    pub notes: &'n [Note],
}

// ---- contracts

fn clauses_in<'n>(function: u32, decl: &Annotated<'_>, item: &'n Annotation) -> &'n [TypedClause]
    ensures { map view_clause result.now ≡ spec.clauses_in function (view_annotated decl.now) (view_annotation item.now) }
{
    match decl {
        Annotated::Function(number, _, _, _) => match item {
            Annotation::Function(clauses, _) => {
                if *number == function {
                    return clauses.as_slice();
                }
                &[]
            }
            Annotation::Definition(_) => &[],
        },
        Annotated::Logic(_) => &[],
    }
}

/// The clauses of a function's contract.
#[tactic(auto, using(crate::proofs::Finding::clause_laws))]
pub(crate) fn clauses_for<'n>(
    function: u32,
    parts: &[Part<'_>],
    items: &'n [Annotation],
) -> &'n [TypedClause]
    ensures { map view_clause result.now ≡ spec.clauses_for function (map view_part parts.now) (map view_annotation items.now) }
{
    for i in 0..parts.len() {
        if i >= items.len() {
            return &[];
        }
        let clauses = clauses_in(function, &parts[i].decl, &items[i]);
        if clauses.len() > 0 {
            return clauses;
        }
    }
    &[]
}

// ---- bodies

fn notes_in<'n>(decl: &Annotated<'_>, item: &'n Annotation) -> Option<&'n [Note]>
    ensures { some_notes result ≡ spec.notes_in (view_annotated decl.now) (view_annotation item.now) }
{
    match decl {
        Annotated::Function(_, _, _, has_body) => match item {
            Annotation::Function(_, notes) => {
                if *has_body {
                    return Some(notes.as_slice());
                }
                None
            }
            Annotation::Definition(_) => None,
        },
        Annotated::Logic(_) => None,
    }
}

#[tactic(auto, using(crate::proofs::Finding::put_laws))]
fn put_notes<'n>(notes: &mut Vec<&'n [Note]>, found: Option<&'n [Note]>) -> Result<(), NoMemory>
    ensures { OnOk result (all_notes notes.new.items ≡ all_notes notes.old.items ++ some_notes found.entry) }
{
    match found {
        Some(found) => {
            notes.push(found)?;
            Ok(())
        }
        None => Ok(()),
    }
}

/// What stands in each body, in the order of the text.
#[tactic(auto, using(crate::proofs::Finding::notes_laws))]
pub(crate) fn notes_of<'n>(
    alloc: Global,
    parts: &[Part<'_>],
    items: &'n [Annotation],
) -> Result<Vec<&'n [Note]>, NoMemory>
    ensures { IfOk result (λ notes. all_notes notes.items ≡ spec.notes_of (map view_part parts.now) (map view_annotation items.now)) }
{
    let mut notes = Vec::new(alloc);
    for i in 0..parts.len() {
        if i >= items.len() {
            return Ok(notes);
        }
        put_notes(&mut notes, notes_in(&parts[i].decl, &items[i]))?;
    }
    Ok(notes)
}

fn text_with<'a, 'b, 'n>(
    body: &'a Body<'b>,
    notes: &[&'n [Note]],
    place: usize,
) -> Option<Text<'a, 'b, 'n>>
    ensures { option_map view_text result ≡ text_by (view_body body.now) (slice_get (all_notes notes.now) place) }
{
    match notes.get(place) {
        Some(notes) => Some(Text { body, notes }),
        None => None,
    }
}

/// The body of a function with its annotations, if it has one.
#[tactic(auto, using(crate::proofs::Finding::text_laws))]
pub(crate) fn text_of<'a, 'b, 'n>(
    function: u32,
    bodies: &'a [Body<'b>],
    notes: &[&'n [Note]],
) -> Option<Text<'a, 'b, 'n>>
    ensures { option_map view_text result ≡ spec.text_of function (map view_body bodies.now) (all_notes notes.now) }
{
    for i in 0..bodies.len() {
        if bodies[i].function == function {
            return text_with(&bodies[i], notes, i);
        }
    }
    None
}
