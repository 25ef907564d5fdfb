// Casts, states of their own, and arguments (ACSL 2.2.3, 2.4.3, 2.6).
ghost use Rattle.std.specs.Prelude.{◌≡◌, IfOk};
ghost use Rattle.std.specs.Option.{option_map};
ghost use Rattle.acsl_rules.specs.Contexts as spec;
ghost use Rattle.acsl_rules.specs.Sorts.{content as content_of};
ghost use Rattle.acsl_trees.specs.Operands.{view_operand};
ghost use Rattle.acsl_trees.specs.Tree.{view_tree};
ghost use Rattle.c_answers.specs.Answers.{Gives};
ghost use Rattle.c_kinds.specs.Models.{convert as converted};

use crate::makers::{leaf, one};
use crate::sorts::{alike_to, content, is_null, is_unknown, is_zero, known_in, may_be_integer};
use crate::values::{integer_of, read_tree, valued};
use acsl_trees::{Content, Head, Label, Operand, Sort, TermType, Tree};
use c_answers::refused;
use c_kinds::{Machdep, convert};
use std::alloc::Global;
use typed_prog::CoreType;
use wp_base::{Kind, Line, NoMemory, Rule, Stop};

fn known_as(model: Machdep, kind: Kind, known: Option<i128>) -> Option<i128>
    ensures { result ≡ option_map (converted model kind) known }
{
    match known {
        Some(known) => Some(convert(model, kind, known)),
        None => None,
    }
}

fn to_kind(
    alloc: Global,
    model: Machdep,
    line: Line,
    kind: Kind,
    of: Operand,
) -> Result<Operand, Stop>
    ensures { Gives view_operand result (spec.to_kind model line kind (view_operand of)) }
{
    if !may_be_integer(&of.sort) {
        return Err(refused(Rule::Typing, line));
    }
    let known = known_as(model, kind, known_in(&of.sort));
    let tree = one(alloc, Head::Convert(kind), of.tree)?;
    Ok(Operand {
        tree,
        sort: Sort::Integer(known),
    })
}

fn to_pointer(
    alloc: Global,
    line: Line,
    ty: CoreType,
    is_void_pointer: bool,
    of: &Operand,
) -> Result<Operand, Stop>
    ensures { Gives view_operand result (spec.to_pointer line ty is_void_pointer (view_operand of.now)) }
{
    if is_zero(known_in(&of.sort)) {
        return Ok(Operand {
            tree: leaf(alloc, Head::Null),
            sort: Sort::Pointer(ty, is_void_pointer),
        });
    }
    Err(refused(Rule::Typing, line))
}

fn cast_value(
    alloc: Global,
    model: Machdep,
    line: Line,
    to: &CoreType,
    is_void_pointer: bool,
    of: Operand,
) -> Result<Operand, Stop>
    ensures { Gives view_operand result (spec.cast_value model line to.now is_void_pointer (view_operand of)) }
{
    if let Some(kind) = to.kind() {
        return to_kind(alloc, model, line, kind, of);
    }
    if to.is_pointer() {
        let ty = to.copy(alloc)?;
        return to_pointer(alloc, line, ty, is_void_pointer, &of);
    }
    Err(refused(Rule::Typing, line))
}

/// A cast to this type, of an integer to an integer kind, or of the constant 0 to a pointer. Where the type is `void *` as spelled, the null
/// pointer has no type of its own.
#[tactic(auto, using(c_answers::proofs::After::after_laws), unfolding(crate::specs::Contexts::cast))]
pub fn cast(
    alloc: Global,
    model: Machdep,
    line: Line,
    to: &CoreType,
    is_void_pointer: bool,
    of: Operand,
) -> Result<Operand, Stop>
    ensures { Gives view_operand result (spec.cast model line to.now is_void_pointer (view_operand of)) }
{
    let of = valued(alloc, line, of)?;
    cast_value(alloc, model, line, to, is_void_pointer, of)
}

fn value_at(alloc: Global, label: Label, tree: Tree, sort: Sort) -> Result<Operand, NoMemory>
    ensures { IfOk result (λ x. view_operand x ≡ spec.value_at label (view_tree tree) sort) }
{
    let tree = one(alloc, Head::At(label), tree)?;
    Ok(Operand { tree, sort })
}

// An array or a struct. One that has a state of its own keeps it.
fn whole_at(
    alloc: Global,
    label: Label,
    tree: Tree,
    ty: CoreType,
    inner: Option<Label>,
) -> Result<Operand, NoMemory>
    ensures { IfOk result (λ x. view_operand x ≡ spec.whole_at label (view_tree tree) ty inner) }
{
    match inner {
        None => value_at(alloc, label, tree, Sort::Object(ty, Some(label))),
        Some(inner) => Ok(Operand {
            tree,
            sort: Sort::Object(ty, Some(inner)),
        }),
    }
}

fn read_at(
    alloc: Global,
    label: Label,
    tree: Tree,
    inner: Option<Label>,
    content: Content,
    sort: Sort,
) -> Result<Operand, NoMemory>
    ensures { IfOk result (λ x. view_operand x ≡ spec.read_at label (view_tree tree) inner content sort) }
{
    let tree = read_tree(alloc, tree, inner, content)?;
    value_at(alloc, label, tree, sort)
}

fn object_at(
    alloc: Global,
    label: Label,
    tree: Tree,
    ty: CoreType,
    inner: Option<Label>,
) -> Result<Operand, NoMemory>
    ensures { IfOk result (λ x. view_operand x ≡ spec.object_at label (view_tree tree) ty inner (content_of ty)) }
{
    match content(&ty) {
        Some(Content::Integer(kind)) => read_at(
            alloc,
            label,
            tree,
            inner,
            Content::Integer(kind),
            Sort::Integer(None),
        ),
        Some(Content::Pointer) => read_at(
            alloc,
            label,
            tree,
            inner,
            Content::Pointer,
            Sort::Pointer(ty, false),
        ),
        Some(Content::Struct(_)) => whole_at(alloc, label, tree, ty, inner),
        None => whole_at(alloc, label, tree, ty, inner),
    }
}

fn sort_at(alloc: Global, label: Label, tree: Tree, sort: Sort) -> Result<Operand, NoMemory>
    ensures { IfOk result (λ x. view_operand x ≡ spec.labelled_by label (view_tree tree) sort) }
{
    match sort {
        Sort::Object(ty, inner) => object_at(alloc, label, tree, ty, inner),
        Sort::Integer(known) => value_at(alloc, label, tree, Sort::Integer(known)),
        Sort::Pointer(ty, null) => value_at(alloc, label, tree, Sort::Pointer(ty, null)),
        Sort::Unknown => value_at(alloc, label, tree, Sort::Unknown),
    }
}

/// A term in a state of its own, as by `\old` and `\at`: a value there, or an array or a struct that is read there.
#[tactic(auto, unfolding(crate::specs::Contexts::labelled))]
pub fn labelled(alloc: Global, label: Label, of: Operand) -> Result<Operand, Stop>
    ensures { Gives view_operand result (spec.labelled label (view_operand of)) }
{
    let Operand { tree, sort } = of;
    Ok(sort_at(alloc, label, tree, sort)?)
}

fn pointer_passed(alloc: Global, line: Line, ty: &CoreType, of: Operand) -> Result<Tree, Stop>
    ensures { Gives view_tree result (spec.pointer_passed line ty.now (view_operand of)) }
{
    if is_null(&of.sort) {
        return Ok(leaf(alloc, Head::Null));
    }
    if alike_to(alloc, ty, &of.sort)? {
        return Ok(of.tree);
    }
    Err(refused(Rule::Typing, line))
}

fn passed_value(alloc: Global, line: Line, to: &TermType, of: Operand) -> Result<Tree, Stop>
    ensures { Gives view_tree result (spec.passed_value line to.now (view_operand of)) }
{
    if is_unknown(&of.sort) {
        return Ok(of.tree);
    }
    match to {
        TermType::Integer => integer_of(line, of),
        TermType::Pointer(ty) => pointer_passed(alloc, line, ty, of),
        TermType::Unknown => Ok(of.tree),
    }
}

/// An argument for a parameter of this type.
#[tactic(auto, using(c_answers::proofs::After::after_laws), unfolding(crate::specs::Contexts::passed))]
pub fn passed(alloc: Global, line: Line, to: &TermType, of: Operand) -> Result<Tree, Stop>
    ensures { Gives view_tree result (spec.passed line to.now (view_operand of)) }
{
    let of = valued(alloc, line, of)?;
    passed_value(alloc, line, to, of)
}
