// Definitions whole: their names, and the list of those before (ACSL 2.6.1).
ghost use Rattle.std.specs.Prelude.{◌≡◌, ℕ, [], IfOk, List, Some, length};
ghost use Rattle.typed_prog.specs.Types.{void as void_type};
ghost use Rattle.acsl_names.specs.declared.names.Definition.{Definition as Declared};
ghost use Rattle.acsl_names.specs.declared.names.Definitions.{Definitions as Known};
ghost use Rattle.acsl_definitions.specs.Definitions as spec;
ghost use Rattle.acsl_names.specs.Names.{view_around};
ghost use Rattle.acsl_names.specs.Sites.{view_before};
ghost use Rattle.acsl_trees.specs.Tree.{view_tree};
ghost use Rattle.c_answers.specs.Answers.{Gives};
ghost use Rattle.c_syntax.specs.View.{view_logic};

use crate::bodies::body_typed;
use crate::headers::{Header, header_typed};
use crate::types::{all_copied, result_copied};
use acsl_guards::calls_itself;
use acsl_names::{Around, Before, Definition, Definitions, Site, Weight, Within};
use acsl_trees::Tree;
use c_answers::refused;
use c_scopes::Object;
use c_syntax::LogicDecl;
use name_table::Scopes;
use std::alloc::Global;
use std::mem::replace;
use typed_prog::CoreType;
use wp_base::{List, NoMemory, Rule, Stop, Str};

/// What is around a definition in place of a function.
#[derive(Drop)]
struct Nowhere {
    blocks: Scopes<u32>,
    objects: List<Object>,
    void: CoreType,
    ghost no_blocks: { blocks ≡ [] },
    ghost no_objects: { objects ≡ [] },
    ghost is_void: { void ≡ void_type },
}

impl Nowhere {
    fn new(alloc: Global) -> Nowhere {
        Nowhere {
            blocks: Scopes::new(alloc),
            objects: List::new(alloc),
            void: CoreType::void(alloc),
        }
    }

    fn around<'a>(
        &'a self,
        before: Before<'a>,
        definitions: &'a Definitions,
        itself: Option<u32>,
    ) -> Around<'a>
        ensures { view_around result ≡ spec.around_body (view_before before.entry) definitions.now itself }
    {
        let within = Within {
            objects: self.objects.as_slice(),
            params: 0,
            result: &self.void,
        };
        before.around(definitions, &self.blocks, within, Site::Definition, itself)
    }
}

fn name_checked(
    before: Before<'_>,
    definitions: &Definitions,
    logic: &LogicDecl,
) -> Result<(), Stop>
    ensures { Gives (λ _. tt) result (spec.name_checked (view_before before.entry) definitions.now (view_logic logic.now)) }
{
    if before.file.names.find(&logic.name).is_none()
        && definitions.names.find(&logic.name).is_none()
    {
        return Ok(());
    }
    Err(refused(Rule::Name, logic.line))
}

fn header_around(
    alloc: Global,
    before: Before<'_>,
    definitions: &Definitions,
    logic: &LogicDecl,
) -> Result<Header, Stop>
    ensures { Gives (λ h. h) result (spec.header_typed (spec.around_body (view_before before.entry) definitions.now None) (view_logic logic.now)) }
{
    let nowhere = Nowhere::new(alloc);
    let around = nowhere.around(before, definitions, None);
    header_typed(alloc, &around, logic)
}

#[tactic(auto, using(c_answers::proofs::After::after_laws))]
fn header_of(
    alloc: Global,
    before: Before<'_>,
    definitions: &Definitions,
    logic: &LogicDecl,
) -> Result<Header, Stop>
    ensures { Gives (λ h. h) result (spec.header_of (view_before before.entry) definitions.now (view_logic logic.now)) }
{
    name_checked(before, definitions, logic)?;
    header_around(alloc, before, definitions, logic)
}

fn body_of(
    alloc: Global,
    before: Before<'_>,
    definitions: &Definitions,
    number: u32,
    logic: &LogicDecl,
    header: &mut Header,
) -> Result<(Tree, Weight), Stop>
    ensures { Gives (λ x. (view_tree x.0, x.1)) result (spec.body_typed (spec.around_body (view_before before.entry) definitions.now (Some number)) (view_logic logic.now) header.old) }
{
    let nowhere = Nowhere::new(alloc);
    let around = nowhere.around(before, definitions, Some(number));
    body_typed(alloc, &around, logic, header)
}

// While its body is read a definition may call itself, and no call of it is expanded.
fn while_read(alloc: Global, header: &Header) -> Result<Definition, NoMemory>
    ensures { IfOk result (λ x. x ≡ spec.while_read header.now) }
{
    Ok(Definition {
        params: all_copied(alloc, &header.params.types)?,
        result: result_copied(alloc, &header.result)?,
        weight: Weight::none(alloc, header.params.types.len())?,
        is_recursive: true,
    })
}

// One definition more; its number.
fn push(
    alloc: Global,
    definitions: &mut Definitions,
    name: &Str,
    definition: Definition,
) -> Result<u32, NoMemory>
    ensures { IfOk result (λ number. (number ≡ length definitions.old.items) × (definitions.new ≡ spec.with_definition definitions.old name.now definition)) }
{
    let count = definitions.items.len();
    if count > u32::MAX as usize {
        return Err(NoMemory);
    }
    definitions.names.declare(alloc, name, count as u32)?;
    definitions.items.push(definition)?;
    Ok(count as u32)
}

// The weight of the last definition, and whether it calls itself, once its body was read.
fn finish(alloc: Global, definitions: &mut Definitions, weight: Weight, is_recursive: bool)
    ensures { (before : Known) (name : List ℕ) (last : Declared) → definitions.old ≡ spec.with_definition before name last → definitions.new ≡ spec.with_definition before name (spec.once_read weight is_recursive last) }
{
    let mut items = replace(&mut definitions.items, List::new(alloc)).into_vec();
    let count = items.len();
    if count > 0 {
        let last = &mut items[count - 1];
        last.weight = weight;
        last.is_recursive = is_recursive;
    }
    definitions.items = List::from_vec(items);
}

#[tactic(auto, using(c_answers::proofs::After::after_laws))]
fn defined(
    alloc: Global,
    before: Before<'_>,
    definitions: &mut Definitions,
    logic: &LogicDecl,
    header: &mut Header,
) -> Result<Tree, Stop>
    ensures { Gives (λ x. (view_tree x, definitions.new)) result (spec.defined (view_before before.entry) definitions.old (view_logic logic.now) header.old) }
{
    let is_recursive = calls_itself(alloc, logic)?;
    let definition = while_read(alloc, header)?;
    let number = push(alloc, definitions, &logic.name, definition)?;
    let (tree, weight) = body_of(alloc, before, definitions, number, logic, header)?;
    finish(alloc, definitions, weight, is_recursive);
    Ok(tree)
}

/// What a definition stands for, or the first fault in it; the definitions before it are those with it behind. At a fault they may only be dropped.
#[tactic(auto, using(c_answers::proofs::After::after_laws), unfolding(crate::specs::Definitions::definition_typed))]
pub fn typed_definition(
    alloc: Global,
    before: Before<'_>,
    definitions: &mut Definitions,
    logic: &LogicDecl,
) -> Result<Tree, Stop>
    ensures { Gives (λ x. (view_tree x, definitions.new)) result (spec.definition_typed (view_before before.entry) definitions.old (view_logic logic.now)) }
{
    let mut header = header_of(alloc, before, definitions, logic)?;
    defined(alloc, before, definitions, logic, &mut header)
}
