// `\let` (ACSL 2.2.2), truths and labels of predicates.
ghost use Rattle.std.specs.Prelude.{◌≡◌, IfOk};
ghost use Rattle.acsl_preds.specs.Preds as spec;
ghost use Rattle.acsl_trees.specs.Operands.{view_operand};
ghost use Rattle.acsl_trees.specs.Tree.{view_tree};
ghost use Rattle.c_answers.specs.Answers.{Gives};

use acsl_rules::{leaf, one, two, valued};
use acsl_terms::misshapen;
use acsl_trees::{Head, Label, Operand, Sort, TermType, Tree};
use c_answers::refused;
use std::alloc::Global;
use wp_base::{Line, NoMemory, Rule, Stop};

/// The value of a `\let`, and whether it has one that a name may stand for.
#[derive(Drop)]
pub(crate) struct LetValue {
    pub tree: Tree,
    pub ty: TermType,
    pub is_value: bool,
}

fn type_of(sort: Sort) -> TermType
    ensures { result ≡ spec.type_of sort }
{
    match sort {
        Sort::Integer(_) => TermType::Integer,
        Sort::Pointer(ty, _) => TermType::Pointer(ty),
        Sort::Unknown => TermType::Unknown,
        Sort::Object(_, _) => TermType::Unknown,
    }
}

pub(crate) fn let_value(alloc: Global, line: Line, value: Operand) -> Result<LetValue, NoMemory>
    ensures { IfOk result (λ x. spec.view_let x ≡ spec.let_value line (view_operand value)) }
{
    match valued(alloc, line, value) {
        Ok(value) => {
            let Operand { tree, sort } = value;
            Ok(LetValue {
                tree,
                ty: type_of(sort),
                is_value: true,
            })
        }
        Err(Stop::Refused(_)) => Ok(LetValue {
            tree: leaf(alloc, Head::Null),
            ty: TermType::Unknown,
            is_value: false,
        }),
        Err(Stop::NoMemory) => Err(NoMemory),
    }
}

/// The predicate under a `\let`.
pub(crate) fn let_tree(
    alloc: Global,
    line: Line,
    is_value: bool,
    value: Tree,
    body: Tree,
) -> Result<Tree, Stop>
    ensures { Gives view_tree result (spec.let_tree line is_value (view_tree value) (view_tree body)) }
{
    if !is_value {
        return Err(refused(Rule::Typing, line));
    }
    Ok(two(alloc, Head::Let, value, body)?)
}

/// A predicate under a label, or the fault that this may not stand there.
pub(crate) fn labelled(
    alloc: Global,
    line: Line,
    label: Option<Label>,
    body: Tree,
) -> Result<Tree, Stop>
    ensures { Gives view_tree result (spec.labelled line label (view_tree body)) }
{
    match label {
        Some(label) => Ok(one(alloc, Head::At(label), body)?),
        None => Err(misshapen(line)),
    }
}

/// `\true` or `\false`.
pub(crate) fn number(alloc: Global, is_true: bool) -> Tree
    ensures { view_tree result ≡ spec.number is_true }
{
    if is_true {
        leaf(alloc, Head::Number(1))
    } else {
        leaf(alloc, Head::Number(0))
    }
}
