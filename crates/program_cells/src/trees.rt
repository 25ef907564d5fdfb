// What annotations speak of (ACSL 2.2, 2.3.4).
ghost use Rattle.std.specs.Prelude.{◌≡◌, ◌∷◌, [], slice_get, OnOk};
ghost use Rattle.std.specs.Option.{option_map};
ghost use Rattle.acsl_trees.specs.Tree.{trees_of, view_tree, view_trees};
ghost use Rattle.c_runs.specs.Objects as objects;
ghost use Rattle.core_trees.specs.View.{view_variables};
ghost use Rattle.program_cells.specs.Trees as spec;
ghost use Rattle.program_cells.specs.View.{Adds, view_declared, view_outline};
ghost use Rattle.program_trees.specs.View.{view_facts};

use crate::cells::{Cells, add_blocks, add_kind};
use crate::declared::{Declared, declared_type, element_in, object_of, result_type, told_first};
use crate::types::{Outline, add_struct, add_target, target_of};
use acsl_trees::{Content, Head, Tree};
use core_trees::FunctionVariable;
use program_trees::Facts;
use typed_prog::Variable;
use wp_base::{CellKind, NoMemory};

/// What stands at an address.
#[tactic(auto, using(crate::proofs::Adding::first_then))]
pub(crate) fn add_content(
    facts: &Facts,
    content: Content,
    cells: &mut Cells,
) -> Result<(), NoMemory>
    ensures { OnOk result (Adds cells.old cells.new (spec.content_parts (view_facts facts.now) content)) }
{
    add_blocks(cells);
    match content {
        Content::Integer(kind) => {
            add_kind(CellKind::Of(kind), cells)?;
            Ok(())
        }
        Content::Pointer => {
            add_kind(CellKind::Ptr, cells)?;
            Ok(())
        }
        Content::Struct(number) => {
            add_struct(facts, number, cells)?;
            Ok(())
        }
    }
}

// What a value leads to, where its type is told.
#[tactic(auto, using(crate::proofs::Adding::nothing))]
fn add_pointer<'a>(
    facts: &Facts,
    ty: Option<Outline<'a>>,
    cells: &mut Cells,
) -> Result<(), NoMemory>
    ensures { OnOk result (Adds cells.old cells.new (spec.parts_if (view_facts facts.now) (option_map view_outline ty.entry))) }
{
    match ty {
        None => Ok(()),
        Some(outline) => {
            add_target(facts, target_of(outline), cells)?;
            Ok(())
        }
    }
}

/// Whether no pointer leads to a variable.
pub(crate) fn is_plain_at(variables: &[FunctionVariable], number: u32) -> bool
    ensures { result ≡ objects.is_plain_in (slice_get (view_variables variables.now) number) }
{
    match variables.get(number as usize) {
        Some(variable) => variable.is_plain,
        None => false,
    }
}

fn is_plain(facts: &Facts, own: &[FunctionVariable], variable: Variable) -> bool
    ensures { result ≡ spec.is_plain (view_facts facts.now) (view_variables own.now) variable }
{
    match variable {
        Variable::Global(number) => is_plain_at(facts.globals.as_slice(), number),
        Variable::Local(number) => is_plain_at(own, number),
    }
}

// The variable that a head is.
fn variable_of(head: Head) -> Option<Variable>
    ensures { result ≡ spec.variable_of head }
{
    match head {
        Head::Variable(variable) => Some(variable),
        _ => None,
    }
}

fn is_plain_variable(facts: &Facts, own: &[FunctionVariable], variable: Option<Variable>) -> bool
    ensures { result ≡ spec.plain_variable (view_facts facts.now) (view_variables own.now) variable }
{
    match variable {
        None => false,
        Some(variable) => is_plain(facts, own, variable),
    }
}

// Whether the first kid is a variable that no pointer leads to.
#[tactic(auto, using(crate::proofs::Kids::plain_laws))]
fn is_plain_place(facts: &Facts, own: &[FunctionVariable], kids: &[Tree]) -> bool
    ensures { result ≡ spec.is_plain_place (view_facts facts.now) (view_variables own.now) (trees_of (view_trees kids.now)) }
{
    if kids.len() == 0 {
        return false;
    }
    let first = variable_of(kids[0].head);
    is_plain_variable(facts, own, first)
}

// What is read, whose address is a variable that no pointer leads to, or isn't; and what the value leads to, where it is a pointer.
#[tactic(auto, using(crate::proofs::Adding::nothing, crate::proofs::Adding::then))]
fn add_read<'a>(
    facts: &Facts,
    content: Content,
    is_plain_place: bool,
    object: Option<Outline<'a>>,
    cells: &mut Cells,
) -> Result<(), NoMemory>
    ensures { OnOk result (Adds cells.old cells.new (spec.read_parts (view_facts facts.now) content is_plain_place (option_map view_outline object.entry))) }
{
    if !is_plain_place {
        add_content(facts, content, cells)?;
    }
    add_pointer(facts, object, cells)?;
    Ok(())
}

fn add_region(
    facts: &Facts,
    content: Content,
    is_plain_place: bool,
    cells: &mut Cells,
) -> Result<(), NoMemory>
    ensures { OnOk result (Adds cells.old cells.new (spec.region_parts (view_facts facts.now) content is_plain_place)) }
{
    if is_plain_place {
        return Ok(());
    }
    add_content(facts, content, cells)?;
    Ok(())
}

// What a node speaks of, by its head.
#[tactic(auto, using(crate::proofs::Adding::nothing))]
fn add_own<'a>(
    facts: &Facts,
    own: &[FunctionVariable],
    declared: Declared<'a>,
    head: Head,
    kids: &[Tree],
    cells: &mut Cells,
) -> Result<(), NoMemory>
    ensures { OnOk result (Adds cells.old cells.new (spec.own_parts (view_facts facts.now) (view_variables own.now) (view_declared declared.entry) head (trees_of (view_trees kids.now)))) }
{
    match head {
        Head::Variable(variable) => add_pointer(facts, declared_type(declared, variable), cells),
        Head::Read { content, label: _ } => {
            let is_plain_place = is_plain_place(facts, own, kids);
            let object = object_of(told_first(kids, declared));
            add_read(facts, content, is_plain_place, object, cells)
        }
        Head::Address => {
            let object = object_of(told_first(kids, declared));
            add_target(facts, element_in(object), cells)
        }
        Head::Result => add_pointer(facts, result_type(declared), cells),
        Head::Valid {
            content,
            writable: _,
        } => add_content(facts, content, cells),
        Head::Region(content) => {
            add_region(facts, content, is_plain_place(facts, own, kids), cells)
        }
        Head::Null
        | Head::Pointed
        | Head::Behind { size: _ }
        | Head::Moved { minus: _, size: _ }
        | Head::Difference { size: _ }
        | Head::ComparePointers(_)
        | Head::LinkPointers(_)
        | Head::Separated => {
            add_blocks(cells);
            Ok(())
        }
        _ => Ok(()),
    }
}

/// What an annotation speaks of.
#[cycle(add_tree)]
#[tactic(auto, using(crate::proofs::Kids::tree_added))]
pub(crate) fn add_tree<'a>(
    tree: &Tree,
    facts: &Facts,
    own: &[FunctionVariable],
    declared: Declared<'a>,
    cells: &mut Cells,
) -> Result<(), NoMemory>
    ensures { OnOk result (Adds cells.old cells.new (spec.tree_parts (view_facts facts.now) (view_variables own.now) (view_declared declared.entry) (view_tree tree.now))) }
{
    let kids = tree.kids.as_slice();
    add_own(facts, own, declared, tree.head, kids, cells)?;
    add_kids(kids, facts, own, declared, cells)?;
    Ok(())
}

#[cycle(add_tree)]
#[tactic(auto, using(crate::proofs::Kids::parts_of_kids, crate::proofs::Adding::onward_laws))]
fn add_kids<'a>(
    kids: &[Tree],
    facts: &Facts,
    own: &[FunctionVariable],
    declared: Declared<'a>,
    cells: &mut Cells,
) -> Result<(), NoMemory>
    ensures { OnOk result (Adds cells.old cells.new (spec.all_tree_parts (view_facts facts.now) (view_variables own.now) (view_declared declared.entry) (trees_of (view_trees kids.now)))) }
{
    for at in 0..kids.len() {
        add_tree(&kids[at], facts, own, declared, cells)?;
    }
    Ok(())
}

/// What annotations speak of.
#[tactic(auto, using(crate::proofs::Kids::parts_of_list, crate::proofs::Adding::onward_laws))]
pub(crate) fn add_trees<'a>(
    trees: &[Tree],
    facts: &Facts,
    own: &[FunctionVariable],
    declared: Declared<'a>,
    cells: &mut Cells,
) -> Result<(), NoMemory>
    ensures { OnOk result (Adds cells.old cells.new (spec.list_parts (view_facts facts.now) (view_variables own.now) (view_declared declared.entry) (view_trees trees.now))) }
{
    for at in 0..trees.len() {
        add_tree(&trees[at], facts, own, declared, cells)?;
    }
    Ok(())
}
