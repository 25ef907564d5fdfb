// The values of terms (ACSL 2.2.3).
ghost use Rattle.std.specs.Prelude.{◌≡◌, IfOk};
ghost use Rattle.acsl_rules.specs.Sorts.{content as content_of};
ghost use Rattle.acsl_rules.specs.Values as spec;
ghost use Rattle.acsl_trees.specs.Operands.{operand, view_operand};
ghost use Rattle.acsl_trees.specs.Tree.{view_tree};
ghost use Rattle.c_answers.specs.Answers.{Gives};

use crate::makers::{leaf, one, two};
use crate::sorts::{content, is_null, is_pointer, may_be_integer};
use acsl_trees::{Content, Head, Label, Operand, Sort, Tree};
use c_answers::refused;
use std::alloc::Global;
use typed_prog::{Comparison, CoreType};
use wp_base::{Line, NoMemory, Rule, Stop};

/// An integer that isn't spelled as a number.
pub(crate) fn integer(tree: Tree) -> Operand
    ensures { view_operand result ≡ spec.integer (view_tree tree) }
{
    Operand {
        tree,
        sort: Sort::Integer(None),
    }
}

pub(crate) fn read_tree(
    alloc: Global,
    tree: Tree,
    label: Option<Label>,
    content: Content,
) -> Result<Tree, NoMemory>
    ensures { IfOk result (λ t. view_tree t ≡ spec.read_tree (view_tree tree) label content) }
{
    one(alloc, Head::Read { content, label }, tree)
}

// The value of an object that is no array, in the state that it is read in.
fn read(
    alloc: Global,
    line: Line,
    tree: Tree,
    ty: CoreType,
    label: Option<Label>,
) -> Result<Operand, Stop>
    ensures { Gives view_operand result (spec.read_by line (view_tree tree) ty label (content_of ty)) }
{
    match content(&ty) {
        Some(Content::Integer(kind)) => {
            Ok(integer(read_tree(alloc, tree, label, Content::Integer(kind))?))
        }
        Some(Content::Pointer) => {
            let tree = read_tree(alloc, tree, label, Content::Pointer)?;
            Ok(Operand {
                tree,
                sort: Sort::Pointer(ty, false),
            })
        }
        Some(Content::Struct(_)) => Err(refused(Rule::Typing, line)),
        None => Err(refused(Rule::Typing, line)),
    }
}

fn decayed(alloc: Global, tree: Tree, ty: &CoreType) -> Result<Operand, NoMemory>
    ensures { IfOk result (λ x. view_operand x ≡ spec.decayed (view_tree tree) ty.now) }
{
    let ty = ty.pointer(alloc, false)?;
    let tree = one(alloc, Head::Address, tree)?;
    Ok(Operand {
        tree,
        sort: Sort::Pointer(ty, false),
    })
}

fn object_value(
    alloc: Global,
    line: Line,
    tree: Tree,
    ty: CoreType,
    label: Option<Label>,
) -> Result<Operand, Stop>
    ensures { Gives view_operand result (spec.object_value line (view_tree tree) ty label ty.count) }
{
    if ty.count.is_some() {
        return Ok(decayed(alloc, tree, &ty)?);
    }
    read(alloc, line, tree, ty, label)
}

/// The value of a term, for the operator on this line: what an object holds, a pointer to the first element of an array, or the value itself. A
/// struct has none.
#[tactic(auto, unfolding(crate::specs::Values::valued))]
pub fn valued(alloc: Global, line: Line, of: Operand) -> Result<Operand, Stop>
    ensures { Gives view_operand result (spec.valued line (view_operand of)) }
{
    let Operand { tree, sort } = of;
    match sort {
        Sort::Object(ty, label) => object_value(alloc, line, tree, ty, label),
        Sort::Integer(known) => Ok(Operand {
            tree,
            sort: Sort::Integer(known),
        }),
        Sort::Pointer(ty, null) => Ok(Operand {
            tree,
            sort: Sort::Pointer(ty, null),
        }),
        Sort::Unknown => Ok(Operand {
            tree,
            sort: Sort::Unknown,
        }),
    }
}

pub(crate) fn integer_of(line: Line, of: Operand) -> Result<Tree, Stop>
    ensures { Gives view_tree result (spec.integer_of line (view_operand of)) }
{
    if may_be_integer(&of.sort) {
        Ok(of.tree)
    } else {
        Err(refused(Rule::Typing, line))
    }
}

/// The value of a term that is an integer.
#[tactic(auto, using(c_answers::proofs::After::after_laws), unfolding(crate::specs::Values::integer_value))]
pub(crate) fn integer_value(alloc: Global, line: Line, of: Operand) -> Result<Tree, Stop>
    ensures { Gives view_tree result (spec.integer_value line (view_operand of)) }
{
    let of = valued(alloc, line, of)?;
    integer_of(line, of)
}

/// What a value is taken for as a truth: an integer for whether it isn't 0, and a pointer for whether it isn't null (ACSL 2.2.1).
pub fn truth(alloc: Global, of: Operand) -> Result<Tree, NoMemory>
    ensures { IfOk result (λ t. view_tree t ≡ spec.truth (view_operand of)) }
{
    if is_pointer(&of.sort) {
        let null = leaf(alloc, Head::Null);
        return two(
            alloc,
            Head::ComparePointers(Comparison::NotEqual),
            of.tree,
            null,
        );
    }
    Ok(of.tree)
}

/// The tree of a value beside one of another sort: beside a pointer a null pointer constant is null.
pub(crate) fn beside(alloc: Global, other: &Sort, sort: &Sort, tree: Tree) -> Tree
    ensures { view_tree result ≡ spec.beside other.now (operand (view_tree tree) sort.now) }
{
    if is_pointer(other) && is_null(sort) {
        leaf(alloc, Head::Null)
    } else {
        tree
    }
}
