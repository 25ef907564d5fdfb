// Files (ACSL 2.6).
ghost use Rattle.std.specs.Prelude.{◌≡◌, ◌++◌, IfOk, OnOk, map, slice_get};
ghost use Rattle.acsl_annotated.specs.Annotated as spec;
ghost use Rattle.acsl_expand.specs.Expansion.{view_all};
ghost use Rattle.acsl_typing.specs.Annotations.{view_annotation, view_annotations};
ghost use Rattle.c_answers.specs.Answers.{Gives};
ghost use Rattle.typed_unit.specs.View.{view_typed};

use crate::clauses::{clauses_expanded, notes_expanded};
use acsl_expand::{Meant, expanded_body};
use acsl_names::Definition;
use acsl_typing::{Annotation, Annotations, type_annots};
use std::alloc::Global;
use typed_unit::Typed;
use wp_base::{List, NoMemory, Stop};

// ---- what definitions stand for

fn is_recursive(definitions: &[Definition], number: usize) -> bool
    ensures { result ≡ spec.is_recursive_by (slice_get definitions.now number) }
{
    match definitions.get(number) {
        Some(definition) => definition.is_recursive,
        None => false,
    }
}

fn params_of(definitions: &[Definition], number: usize) -> usize
    ensures { result ≡ spec.params_by (slice_get definitions.now number) }
{
    match definitions.get(number) {
        Some(definition) => definition.params.len(),
        None => 0,
    }
}

fn behind(number: usize, item: &Annotation) -> Result<usize, NoMemory>
    ensures { IfOk result (λ next. next ≡ spec.behind number (view_annotation item.now)) }
{
    match item {
        Annotation::Function(_, _) => Ok(number),
        Annotation::Definition(_) => number.checked_add(1).ok_or(NoMemory),
    }
}

fn put_meant(
    alloc: Global,
    definitions: &[Definition],
    meant: &mut Vec<Meant>,
    number: usize,
    item: &Annotation,
) -> Result<(), NoMemory>
    ensures { OnOk result (view_all meant.new.items ≡ view_all meant.old.items ++ spec.meant_in definitions.now number (view_annotation item.now)) }
{
    match item {
        Annotation::Function(_, _) => Ok(()),
        Annotation::Definition(tree) => {
            let body = tree.copy(alloc)?;
            let is_recursive = is_recursive(definitions, number);
            meant.push(Meant { body, is_recursive })?;
            Ok(())
        }
    }
}

#[tactic(auto, using(crate::proofs::Mapping::meant_laws))]
fn meant_of(
    alloc: Global,
    definitions: &[Definition],
    items: &[Annotation],
) -> Result<Vec<Meant>, NoMemory>
    ensures { IfOk result (λ meant. view_all meant.items ≡ spec.meant_from definitions.now 0 (map view_annotation items.now)) }
{
    let mut meant = Vec::new(alloc);
    let mut number = 0;
    for i in 0..items.len() {
        let item = &items[i];
        put_meant(alloc, definitions, &mut meant, number, item)?;
        number = behind(number, item)?;
    }
    Ok(meant)
}

// ---- declarations

fn item_expanded(
    alloc: Global,
    meant: &[Meant],
    definitions: &[Definition],
    number: usize,
    item: &Annotation,
) -> Result<Annotation, NoMemory>
    ensures { IfOk result (λ made. view_annotation made ≡ spec.item_expanded (view_all meant.now) definitions.now number (view_annotation item.now)) }
{
    match item {
        Annotation::Function(clauses, notes) => {
            let clauses = clauses_expanded(alloc, meant, clauses.as_slice())?;
            let notes = notes_expanded(alloc, meant, notes.as_slice())?;
            Ok(Annotation::Function(clauses, notes))
        }
        Annotation::Definition(_) => {
            let params = params_of(definitions, number);
            Ok(Annotation::Definition(expanded_body(alloc, meant, number, params)?))
        }
    }
}

#[tactic(auto, using(crate::proofs::Mapping::item_laws))]
fn items_expanded(
    alloc: Global,
    meant: &[Meant],
    definitions: &[Definition],
    items: &[Annotation],
) -> Result<List<Annotation>, NoMemory>
    ensures { IfOk result (λ made. map view_annotation made ≡ spec.items_from (view_all meant.now) definitions.now 0 (map view_annotation items.now)) }
{
    let mut made = Vec::new(alloc);
    let mut number = 0;
    for i in 0..items.len() {
        let item = &items[i];
        made.push(item_expanded(alloc, meant, definitions, number, item)?)?;
        number = behind(number, item)?;
    }
    Ok(List::from_vec(made))
}

/// Annotations with their definitions expanded.
pub fn expand_annotations(alloc: Global, annotations: Annotations) -> Result<Annotations, NoMemory>
    ensures { IfOk result (λ made. view_annotations made ≡ spec.all_expanded (view_annotations annotations)) }
{
    let definitions = annotations.definitions.items.as_slice();
    let items = annotations.items.as_slice();
    let meant = meant_of(alloc, definitions, items)?;
    let expanded = items_expanded(alloc, meant.as_slice(), definitions, items)?;
    let Annotations {
        definitions,
        items: _,
    } = annotations;
    Ok(Annotations {
        definitions,
        items: expanded,
    })
}

/// The annotations of a typed file with their definitions expanded, or the first fault among them in the order of the text.
#[tactic(auto, using(c_answers::proofs::After::after_laws), unfolding(crate::specs::Annotated::file_expanded))]
pub fn type_annotated(alloc: Global, typed: &Typed<'_>) -> Result<Annotations, Stop>
    ensures { Gives view_annotations result (spec.file_expanded (view_typed typed.now)) }
{
    let annotations = type_annots(alloc, typed)?;
    Ok(expand_annotations(alloc, annotations)?)
}
