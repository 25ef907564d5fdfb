// Calls of definitions expanded in place (ACSL 2.6).
ghost use Rattle.std.specs.Prelude.{◌≡◌, IfOk, if◌then◌else◌, ◌+◌, ◌&&◌};
ghost use Rattle.acsl_expand.specs.Expansion as spec;
ghost use Rattle.acsl_trees.specs.Tree.{leaf as leaf_of, trees_of, view_tree, view_trees};

use crate::parts::{Part, part_of};
use acsl_trees::{Head, Tree};
use std::alloc::Global;
use wp_base::{List, NoMemory};

/// What a definition stands for, and whether it calls itself.
#[derive(Drop)]
pub struct Meant {
    pub body: Tree,
    pub is_recursive: bool,
}

#[tactic(auto, using(acsl_trees::proofs::Equations::tree_laws))]
fn leaf(alloc: Global, head: Head) -> Tree
    ensures { view_tree result ≡ leaf_of head }
{
    Tree {
        head,
        kids: List::new(alloc),
    }
}

// A parameter becomes its argument, and any other name a name.
#[tactic(auto, using(crate::proofs::Placing::placing_laws))]
fn placed(alloc: Global, arguments: &[Tree], base: usize, name: u32) -> Result<Tree, NoMemory>
    ensures { IfOk result (λ tree. view_tree tree ≡ spec.placed (view_trees arguments.now) base name) }
{
    let place = name as usize;
    if place < arguments.len() {
        return arguments[place].copy(alloc);
    }
    let Some(number) = (place - arguments.len()).checked_add(base) else {
        return Err(NoMemory);
    };
    let Ok(number) = u32::try_from(number) else {
        return Err(NoMemory);
    };
    Ok(leaf(alloc, Head::Name(number)))
}

// How many names are around a kid. A name is bound in the last kid of a binder.
fn around_kid(in_binder: bool, is_last: bool, around: usize) -> Result<usize, NoMemory>
    ensures { IfOk result (λ n. n ≡ if in_binder && is_last then around + 1 else around) }
{
    if !(in_binder && is_last) {
        return Ok(around);
    }
    match around.checked_add(1) {
        Some(more) => Ok(more),
        None => Err(NoMemory),
    }
}

// The body of a definition for these arguments: `base` names are around its call, and `around` names around the tree. What the recursion goes down
// stands first.
#[tactic(auto, using(crate::proofs::Expanding::tree_laws))]
#[cycle(expanding)]
fn expand(
    alloc: Global,
    tree: &Tree,
    definitions: &[Meant],
    arguments: &[Tree],
    base: usize,
    around: usize,
) -> Result<Tree, NoMemory>
    ensures { IfOk result (λ made. view_tree made ≡ spec.expand (spec.calls_in definitions.now) (view_trees arguments.now) base around (view_tree tree.now)) }
{
    match part_of(tree.head) {
        Part::Name(name) => placed(alloc, arguments, base, name),
        Part::Call(number) => {
            let given = expand_kids(
                alloc,
                tree.kids.as_slice(),
                definitions,
                arguments,
                base,
                around,
                false,
            )?;
            called(alloc, definitions, number, around, given)
        }
        Part::Other(in_binder) => {
            let kids = expand_kids(
                alloc,
                tree.kids.as_slice(),
                definitions,
                arguments,
                base,
                around,
                in_binder,
            )?;
            Ok(Tree {
                head: tree.head,
                kids,
            })
        }
    }
}

#[tactic(auto, using(crate::proofs::Expanding::kid_laws))]
#[cycle(expanding)]
fn expand_kids(
    alloc: Global,
    kids: &[Tree],
    definitions: &[Meant],
    arguments: &[Tree],
    base: usize,
    around: usize,
    in_binder: bool,
) -> Result<List<Tree>, NoMemory>
    ensures { IfOk result (λ made. view_trees made ≡ spec.expand_kids (spec.calls_in definitions.now) (view_trees arguments.now) base around in_binder (trees_of (view_trees kids.now))) }
{
    let mut made = List::new(alloc);
    for kid in kids {
        let is_last = made.len() + 1 == kids.len();
        let inside = around_kid(in_binder, is_last, around)?;
        made.push(expand(alloc, kid, definitions, arguments, base, inside)?)?;
    }
    Ok(made)
}

// What a call becomes, by the definitions that it may call.
#[tactic(auto, using(crate::proofs::Calling::call_laws))]
#[cycle(expanding)]
fn called(
    alloc: Global,
    definitions: &[Meant],
    number: u32,
    around: usize,
    arguments: List<Tree>,
) -> Result<Tree, NoMemory>
    ensures { IfOk result (λ made. view_tree made ≡ spec.calls_in definitions.now number around (view_trees arguments)) }
{
    let place = number as usize;
    if place >= definitions.len() {
        return Ok(leaf(alloc, Head::Number(0)));
    }
    let definition = &definitions[place];
    if definition.is_recursive {
        return Ok(Tree {
            head: Head::Call(number),
            kids: arguments,
        });
    }
    expand(
        alloc,
        &definition.body,
        &definitions[..place],
        arguments.as_slice(),
        around,
        around,
    )
}

/// An annotation, which has no parameters, with its calls expanded; those of definitions that call themselves stay.
pub fn expanded(alloc: Global, definitions: &[Meant], tree: &Tree) -> Result<Tree, NoMemory>
    ensures { IfOk result (λ made. view_tree made ≡ spec.expanded (spec.view_all definitions.now) (view_tree tree.now)) }
{
    expand(alloc, tree, definitions, &[], 0, 0)
}

/// The body of a definition that calls itself and has so many parameters, likewise; its parameters stay names.
#[tactic(auto, using(crate::proofs::Calling::body_is))]
pub fn expanded_body(
    alloc: Global,
    definitions: &[Meant],
    number: usize,
    params: usize,
) -> Result<Tree, NoMemory>
    ensures { IfOk result (λ made. view_tree made ≡ spec.expanded_body (spec.view_all definitions.now) number params) }
{
    if number >= definitions.len() {
        return Ok(leaf(alloc, Head::Number(0)));
    }
    expand(
        alloc,
        &definitions[number].body,
        &definitions[..number + 1],
        &[],
        0,
        params,
    )
}
