// What is declared around an annotation, and the types of what stands in it, as far as they are told.
ghost use Rattle.std.specs.Prelude.{◌≡◌, slice_get};
ghost use Rattle.std.specs.Option.{option_map};
ghost use Rattle.acsl_trees.specs.Tree.{trees_of, view_tree, view_trees};
ghost use Rattle.program_cells.specs.Trees as spec;
ghost use Rattle.program_cells.specs.View.{view_declared, view_outline, view_told};

use crate::types::{Outline, element_of, outline_of, struct_of, target_of};
use acsl_trees::{Head, Tree};
use c_scopes::{Field, Object, Structure};
use typed_prog::{CoreType, Variable};

/// Variables of the file and of the function, structs, and what the function gives.
#[derive(Clone, Copy)]
pub struct Declared<'a> {
    pub globals: &'a [Object],
    pub locals: &'a [Object],
    pub structs: &'a [Structure],
    pub result: Option<&'a CoreType>,
}

/// The type of the object at an address, or of what a pointer leads to, as far as it is told.
#[derive(Clone, Copy)]
pub enum Told<'a> {
    Place(Option<Outline<'a>>),
    Target(Option<Outline<'a>>),
}

// ---- types

fn type_in<'a>(objects: &'a [Object], number: u32) -> Option<Outline<'a>>
    ensures { option_map view_outline result ≡ spec.type_in (slice_get objects.now number) }
{
    match objects.get(number as usize) {
        None => None,
        Some(object) => Some(outline_of(&object.ty)),
    }
}

fn field_type<'a>(fields: &'a [Field], number: u32) -> Option<Outline<'a>>
    ensures { option_map view_outline result ≡ spec.field_type (slice_get fields.now number) }
{
    match fields.get(number as usize) {
        None => None,
        Some(field) => Some(outline_of(&field.ty)),
    }
}

fn member_in<'a>(structs: &'a [Structure], tag: u32, number: u32) -> Option<Outline<'a>>
    ensures { option_map view_outline result ≡ spec.member_in (slice_get structs.now tag) number }
{
    match structs.get(tag as usize) {
        None => None,
        Some(structure) => field_type(structure.fields.as_slice(), number),
    }
}

// The field of a struct, where the type is told.
fn field_in<'a>(
    structs: &'a [Structure],
    number: u32,
    object: Option<Outline<'a>>,
) -> Option<Outline<'a>>
    ensures { option_map view_outline result ≡ spec.field_in structs.now number (option_map view_outline object.entry) }
{
    match object {
        None => None,
        Some(outline) => match struct_of(outline) {
            None => None,
            Some(tag) => member_in(structs, tag, number),
        },
    }
}

/// The elements of an array.
pub(crate) fn element_in<'a>(object: Option<Outline<'a>>) -> Option<Outline<'a>>
    ensures { option_map view_outline result ≡ spec.element_in (option_map view_outline object.entry) }
{
    match object {
        None => None,
        Some(outline) => Some(element_of(outline)),
    }
}

fn target_in<'a>(object: Option<Outline<'a>>) -> Option<Outline<'a>>
    ensures { option_map view_outline result ≡ spec.target_in (option_map view_outline object.entry) }
{
    match object {
        None => None,
        Some(outline) => target_of(outline),
    }
}

/// The type of the object at an address.
pub(crate) fn object_of<'a>(told: Told<'a>) -> Option<Outline<'a>>
    ensures { option_map view_outline result ≡ spec.object_of (view_told told.entry) }
{
    match told {
        Told::Place(ty) => ty,
        Told::Target(_) => None,
    }
}

fn pointed_of<'a>(told: Told<'a>) -> Option<Outline<'a>>
    ensures { option_map view_outline result ≡ spec.pointed_of (view_told told.entry) }
{
    match told {
        Told::Place(_) => None,
        Told::Target(ty) => ty,
    }
}

/// What the function gives.
pub(crate) fn result_type<'a>(declared: Declared<'a>) -> Option<Outline<'a>>
    ensures { option_map view_outline result ≡ spec.result_type (view_declared declared.entry).result }
{
    match declared.result {
        None => None,
        Some(ty) => Some(outline_of(ty)),
    }
}

/// The type of a variable.
pub(crate) fn declared_type<'a>(declared: Declared<'a>, variable: Variable) -> Option<Outline<'a>>
    ensures { option_map view_outline result ≡ spec.declared_type (view_declared declared.entry) variable }
{
    match variable {
        Variable::Global(number) => type_in(declared.globals, number),
        Variable::Local(number) => type_in(declared.locals, number),
    }
}

// Told of the first kid, and for a choice of the second one.
fn told_by<'a>(declared: Declared<'a>, head: Head, first: Told<'a>, second: Told<'a>) -> Told<'a>
    ensures { view_told result ≡ spec.told_by (view_declared declared.entry) head (view_told first.entry) (view_told second.entry) }
{
    match head {
        Head::Variable(variable) => Told::Place(declared_type(declared, variable)),
        Head::Pointed => Told::Place(pointed_of(first)),
        Head::Field { number, offset: _ } => {
            Told::Place(field_in(declared.structs, number, object_of(first)))
        }
        Head::Element { size: _, count: _ } => Told::Place(element_in(object_of(first))),
        Head::Elements { size: _, count: _ } => Told::Place(element_in(object_of(first))),
        Head::Behind { size: _ } => Told::Place(pointed_of(first)),
        Head::Read {
            content: _,
            label: _,
        } => Told::Target(target_in(object_of(first))),
        Head::Address => Told::Target(element_in(object_of(first))),
        Head::Moved { minus: _, size: _ } => Told::Target(pointed_of(first)),
        Head::Result => Told::Target(target_in(result_type(declared))),
        Head::At(_) => first,
        Head::Choose => second,
        Head::Number(_)
        | Head::Null
        | Head::Name(_)
        | Head::Call(_)
        | Head::Difference { size: _ }
        | Head::Negate
        | Head::Complement
        | Head::Arithmetic(_)
        | Head::Convert(_)
        | Head::Compare(_)
        | Head::ComparePointers(_)
        | Head::Not
        | Head::And
        | Head::Or
        | Head::Xor
        | Head::Implies
        | Head::Iff
        | Head::Chain
        | Head::Link(_)
        | Head::LinkPointers(_)
        | Head::Let
        | Head::Every(_)
        | Head::Some(_)
        | Head::Valid {
            content: _,
            writable: _,
        }
        | Head::Separated
        | Head::Region(_) => Told::Place(None),
    }
}

/// What is told of a tree.
#[cycle(told)]
#[tactic(auto, using(crate::proofs::Kids::told_laws))]
pub(crate) fn told_of<'a>(tree: &Tree, declared: Declared<'a>) -> Told<'a>
    ensures { view_told result ≡ spec.told (view_declared declared.entry) (view_tree tree.now) }
{
    let kids = tree.kids.as_slice();
    let first = told_first(kids, declared);
    let second = told_second(kids, declared);
    told_by(declared, tree.head, first, second)
}

/// What is told of the first kid.
#[cycle(told)]
#[tactic(auto, using(crate::proofs::Kids::told_laws))]
pub(crate) fn told_first<'a>(kids: &[Tree], declared: Declared<'a>) -> Told<'a>
    ensures { view_told result ≡ spec.told_first (view_declared declared.entry) (trees_of (view_trees kids.now)) }
{
    if kids.is_empty() {
        return Told::Place(None);
    }
    told_of(&kids[0], declared)
}

#[cycle(told)]
#[tactic(auto, using(crate::proofs::Kids::told_laws))]
fn told_second<'a>(kids: &[Tree], declared: Declared<'a>) -> Told<'a>
    ensures { view_told result ≡ spec.told_second (view_declared declared.entry) (trees_of (view_trees kids.now)) }
{
    if kids.len() < 2 {
        return Told::Place(None);
    }
    told_of(&kids[1], declared)
}
