// What logic definitions stand for (ACSL 2.6).
ghost use Rattle.std.specs.Prelude.{◌≡◌, ◌++◌, IfOk, OnOk, map, slice_get};
ghost use Rattle.acsl_annotated.specs.Annotated as spec;
ghost use Rattle.acsl_expand.specs.Expansion.{view_all};
ghost use Rattle.acsl_typing.specs.Annotations.{view_annotation};

use acsl_expand::Meant;
use acsl_names::Definition;
use acsl_typing::Annotation;
use std::alloc::Global;
use wp_base::{List, NoMemory};

fn is_recursive(definitions: &[Definition], number: usize) -> bool
    ensures { result ≡ spec.is_recursive_by (slice_get definitions.now number) }
{
    match definitions.get(number) {
        Some(definition) => definition.is_recursive,
        None => false,
    }
}

fn behind(number: usize, item: &Annotation) -> Result<usize, NoMemory>
    ensures { IfOk result (λ next. next ≡ spec.behind number (view_annotation item.now)) }
{
    match item {
        Annotation::Function(_, _) => Ok(number),
        Annotation::Definition(_) => number.checked_add(1).ok_or(NoMemory),
    }
}

#[tactic(auto, using(crate::proofs::Listing::nothing_meant))]
fn put_meant(
    alloc: Global,
    definitions: &[Definition],
    meant: &mut List<Meant>,
    number: usize,
    item: &Annotation,
) -> Result<(), NoMemory>
    ensures { OnOk result (view_all meant.new ≡ view_all meant.old ++ spec.meant_in definitions.now number (view_annotation item.now)) }
{
    match item {
        Annotation::Function(_, _) => Ok(()),
        Annotation::Definition(tree) => {
            let body = tree.copy(alloc)?;
            let is_recursive = is_recursive(definitions, number);
            meant.push(Meant { body, is_recursive })
        }
    }
}

/// What the definitions of a file stand for.
#[tactic(auto, using(crate::proofs::Listing::meant_laws))]
pub(crate) fn meant_of(
    alloc: Global,
    definitions: &[Definition],
    items: &[Annotation],
) -> Result<List<Meant>, NoMemory>
    ensures { IfOk result (λ meant. view_all meant ≡ spec.meant_from definitions.now 0 (map view_annotation items.now)) }
{
    let mut meant = List::new(alloc);
    let mut number = 0;
    for i in 0..items.len() {
        let item = &items[i];
        put_meant(alloc, definitions, &mut meant, number, item)?;
        number = behind(number, item)?;
    }
    Ok(meant)
}
