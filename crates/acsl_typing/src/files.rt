// Files (ACSL 2.3 to 2.6).
ghost use Rattle.std.specs.Prelude.{◌≡◌, IfOk, map};
ghost use Rattle.acsl_definitions.specs.Definitions.{definition_typed};
ghost use Rattle.acsl_trees.specs.Tree.{view_tree};
ghost use Rattle.acsl_typing.specs.Annotations as spec;
ghost use Rattle.c_answers.specs.Answers.{Gives};
ghost use Rattle.c_syntax.specs.View.{view_logic};
ghost use Rattle.typed_unit.specs.View.{view_part, view_typed};

use crate::annotations::{Annotating, Annotation, Annotations};
use crate::functions::{Declared, function_annotated};
use crate::sites::{before_of, sizes_of};
use acsl_definitions::typed_definition;
use acsl_names::Definitions;
use acsl_trees::Tree;
use c_scopes::File;
use c_syntax::LogicDecl;
use name_table::Table;
use std::alloc::Global;
use typed_unit::{Annotated, Part, Typed};
use wp_base::{List, NoMemory, Stop};

fn definition_tree(
    alloc: Global,
    typed: &Typed<'_>,
    sizes: &[u32],
    definitions: &mut Definitions,
    names: u32,
    tags: u32,
    logic: &LogicDecl,
) -> Result<Tree, Stop>
    ensures { Gives (λ x. (view_tree x, definitions.new)) result (definition_typed (spec.before_of (view_typed typed.now) sizes.now names tags) definitions.old (view_logic logic.now)) }
{
    let before = before_of(typed, sizes, names, tags);
    typed_definition(alloc, before, definitions, logic)
}

#[tactic(auto, using(c_answers::proofs::After::after_laws))]
fn definition_annotated(
    alloc: Global,
    typed: &Typed<'_>,
    so_far: &mut Annotating,
    names: u32,
    tags: u32,
    logic: &LogicDecl,
) -> Result<(), Stop>
    ensures { Gives (λ _. spec.view_annotating so_far.new) result (spec.definition_annotated (view_typed typed.now) (spec.view_annotating so_far.old) names tags (view_logic logic.now)) }
{
    let sizes = so_far.sizes.as_slice();
    let definitions = &mut so_far.definitions;
    let tree = definition_tree(alloc, typed, sizes, definitions, names, tags, logic)?;
    so_far.items.push(Annotation::Definition(tree))?;
    Ok(())
}

fn part_annotated(
    alloc: Global,
    typed: &Typed<'_>,
    so_far: &mut Annotating,
    part: &Part<'_>,
) -> Result<(), Stop>
    ensures { Gives (λ _. spec.view_annotating so_far.new) result (spec.part_annotated (view_typed typed.now) (spec.view_annotating so_far.old) (view_part part.now)) }
{
    match &part.decl {
        Annotated::Function(number, params, contract, has_body) => {
            let declared = Declared {
                names: part.names,
                tags: part.tags,
                number: *number,
                params: params.as_slice(),
                contract,
                has_body: *has_body,
            };
            function_annotated(alloc, typed, so_far, declared)
        }
        Annotated::Logic(logic) => {
            definition_annotated(alloc, typed, so_far, part.names, part.tags, logic)
        }
    }
}

#[tactic(auto, using(crate::proofs::Parts::part_laws))]
fn parts_annotated(
    alloc: Global,
    typed: &Typed<'_>,
    so_far: &mut Annotating,
    parts: &[Part<'_>],
) -> Result<(), Stop>
    ensures { Gives (λ _. spec.view_annotating so_far.new) result (spec.parts_annotated (view_typed typed.now) (spec.view_annotating so_far.old) (map view_part parts.now)) }
{
    for i in 0..parts.len() {
        part_annotated(alloc, typed, so_far, &parts[i])?;
    }
    Ok(())
}

#[tactic(auto, using(crate::proofs::Parts::false_laws))]
fn at_start(alloc: Global, file: &File) -> Result<Annotating, NoMemory>
    ensures { IfOk result (λ start. spec.view_annotating start ≡ spec.at_start file.now) }
{
    let mut contracted = Vec::new(alloc);
    for i in 0..file.functions.len() {
        contracted.push(false)?;
    }
    Ok(Annotating {
        sizes: sizes_of(alloc, file)?,
        definitions: Definitions {
            names: Table::new(alloc),
            items: List::new(alloc),
        },
        contracted,
        bodies: 0,
        items: List::new(alloc),
    })
}

/// The annotations of a typed file, or the first fault among them in the order of the text.
#[tactic(auto, using(c_answers::proofs::After::after_laws), unfolding(crate::specs::Annotations::file_annotated))]
pub fn type_annots(alloc: Global, typed: &Typed<'_>) -> Result<Annotations, Stop>
    ensures { Gives spec.view_annotations result (spec.file_annotated (view_typed typed.now)) }
{
    let mut so_far = at_start(alloc, &typed.file)?;
    parts_annotated(alloc, typed, &mut so_far, typed.parts.as_slice())?;
    let Annotating {
        sizes: _,
        definitions,
        contracted: _,
        bodies: _,
        items,
    } = so_far;
    Ok(Annotations { definitions, items })
}
