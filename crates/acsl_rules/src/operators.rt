// The operators of one and of two operands (ACSL 2.2.3).
ghost use Rattle.std.specs.Prelude.{◌≡◌, IfOk, MatchResult};
ghost use Rattle.acsl_rules.specs.Operators as spec;
ghost use Rattle.acsl_trees.specs.Operands.{view_operand};
ghost use Rattle.acsl_trees.specs.Tree.{trees_of, view_tree, view_trees};
ghost use Rattle.c_answers.specs.Answers.{Gives};
ghost use Rattle.typed_prog.specs.Types.{target_of};

use crate::comparisons::{equality, order};
use crate::makers::{one, two};
use crate::sums::{arithmetic, difference, sum};
use crate::values::{integer, integer_value, truth, valued};
use acsl_trees::{Head, Label, Operand, Sort, Tree};
use c_answers::refused;
use c_syntax::{BinOp, UnOp};
use std::alloc::Global;
use typed_prog::{Arithmetic, Comparison, CoreType};
use wp_base::{Line, List, NoMemory, Rule, Stop};

fn followed(alloc: Global, line: Line, tree: Tree, ty: &CoreType) -> Result<Operand, Stop>
    ensures { Gives view_operand result (spec.followed_by line (view_tree tree) (target_of ty.now)) }
{
    match ty.target(alloc)? {
        None => Err(refused(Rule::Typing, line)),
        Some((ty, _)) => {
            if ty.is_void() {
                return Err(refused(Rule::Typing, line));
            }
            let tree = one(alloc, Head::Pointed, tree)?;
            Ok(Operand {
                tree,
                sort: Sort::Object(ty, None),
            })
        }
    }
}

pub(crate) fn dereferenced_value(alloc: Global, line: Line, of: Operand) -> Result<Operand, Stop>
    ensures { Gives view_operand result (spec.dereferenced_value line (view_operand of)) }
{
    let Operand { tree, sort } = of;
    match sort {
        Sort::Pointer(ty, _) => followed(alloc, line, tree, &ty),
        Sort::Unknown => Ok(Operand {
            tree,
            sort: Sort::Unknown,
        }),
        Sort::Object(_, _) => Err(refused(Rule::Typing, line)),
        Sort::Integer(_) => Err(refused(Rule::Typing, line)),
    }
}

/// `*`
#[tactic(auto, using(c_answers::proofs::After::after_laws), unfolding(crate::specs::Operators::dereferenced))]
pub(crate) fn dereferenced(alloc: Global, line: Line, of: Operand) -> Result<Operand, Stop>
    ensures { Gives view_operand result (spec.dereferenced line (view_operand of)) }
{
    let of = valued(alloc, line, of)?;
    dereferenced_value(alloc, line, of)
}

fn is_pointed(head: Head) -> bool
    ensures { result ≡ spec.is_pointed head }
{
    matches!(head, Head::Pointed)
}

// The one kid, or the kids as they are where they are none or more.
#[tactic(auto, using(crate::proofs::Only::only_laws))]
fn only(kids: List<Tree>) -> Result<Tree, List<Tree>>
    ensures { MatchResult result (λ t. spec.only_of (trees_of (view_trees kids)) ≡ Some (view_tree t)) (λ ts. (ts ≡ kids) × (spec.only_of (trees_of (view_trees kids)) ≡ None)) }
{
    let mut kids = kids.into_vec();
    if kids.len() != 1 {
        return Err(List::from_vec(kids));
    }
    match kids.pop() {
        Some(kid) => Ok(kid),
        None => Err(List::from_vec(kids)),
    }
}

#[tactic(auto, using(acsl_trees::proofs::Equations::tree_laws, crate::proofs::Whole::view_whole))]
fn address_of(alloc: Global, tree: Tree) -> Result<Tree, NoMemory>
    ensures { IfOk result (λ t. view_tree t ≡ spec.address_of (view_tree tree)) }
{
    if !is_pointed(tree.head) {
        return one(alloc, Head::Address, tree);
    }
    let Tree { head, kids } = tree;
    match only(kids) {
        Ok(pointer) => Ok(pointer),
        Err(kids) => one(alloc, Head::Address, Tree { head, kids }),
    }
}

fn address_of_object(
    alloc: Global,
    line: Line,
    tree: Tree,
    ty: CoreType,
    label: Option<Label>,
) -> Result<Operand, Stop>
    ensures { Gives view_operand result (spec.address_by_label line (view_tree tree) ty label) }
{
    if label.is_some() || ty.count.is_some() {
        return Err(refused(Rule::Typing, line));
    }
    let ty = ty.pointer(alloc, false)?;
    let tree = address_of(alloc, tree)?;
    Ok(Operand {
        tree,
        sort: Sort::Pointer(ty, false),
    })
}

/// `&`. An array has no pointer to it, and what is read in a state of its own is no lvalue.
#[tactic(auto, unfolding(crate::specs::Operators::address))]
fn address(alloc: Global, line: Line, of: Operand) -> Result<Operand, Stop>
    ensures { Gives view_operand result (spec.address line (view_operand of)) }
{
    let Operand { tree, sort } = of;
    match sort {
        Sort::Object(ty, label) => address_of_object(alloc, line, tree, ty, label),
        Sort::Integer(_) => Err(refused(Rule::Typing, line)),
        Sort::Pointer(_, _) => Err(refused(Rule::Typing, line)),
        Sort::Unknown => Err(refused(Rule::Typing, line)),
    }
}

fn negation(alloc: Global, of: Operand) -> Result<Operand, NoMemory>
    ensures { IfOk result (λ x. view_operand x ≡ spec.negation (view_operand of)) }
{
    let tree = truth(alloc, of)?;
    Ok(integer(one(alloc, Head::Not, tree)?))
}

/// An operator of one operand.
#[tactic(auto, using(c_answers::proofs::After::after_laws), unfolding(crate::specs::Operators::unary))]
pub fn unary(alloc: Global, line: Line, op: UnOp, of: Operand) -> Result<Operand, Stop>
    ensures { Gives view_operand result (spec.unary line op (view_operand of)) }
{
    match op {
        UnOp::Plus => Ok(integer(integer_value(alloc, line, of)?)),
        UnOp::Minus => {
            let tree = integer_value(alloc, line, of)?;
            Ok(integer(one(alloc, Head::Negate, tree)?))
        }
        UnOp::BitNot => {
            let tree = integer_value(alloc, line, of)?;
            Ok(integer(one(alloc, Head::Complement, tree)?))
        }
        UnOp::Not => {
            let of = valued(alloc, line, of)?;
            Ok(negation(alloc, of)?)
        }
        UnOp::Deref => dereferenced(alloc, line, of),
        UnOp::AddressOf => address(alloc, line, of),
    }
}

fn connected(alloc: Global, head: Head, left: Operand, right: Operand) -> Result<Operand, NoMemory>
    ensures { IfOk result (λ x. view_operand x ≡ spec.connected head (view_operand left) (view_operand right)) }
{
    let left = truth(alloc, left)?;
    let right = truth(alloc, right)?;
    Ok(integer(two(alloc, head, left, right)?))
}

fn binary_values(
    alloc: Global,
    sizes: &[u32],
    line: Line,
    op: BinOp,
    left: Operand,
    right: Operand,
) -> Result<Operand, Stop>
    ensures { Gives view_operand result (spec.binary_values sizes.now line op (view_operand left) (view_operand right)) }
{
    match op {
        BinOp::Mul => arithmetic(alloc, line, Arithmetic::Mul, left, right),
        BinOp::Div => arithmetic(alloc, line, Arithmetic::Div, left, right),
        BinOp::Rem => arithmetic(alloc, line, Arithmetic::Rem, left, right),
        BinOp::Shl => arithmetic(alloc, line, Arithmetic::Shl, left, right),
        BinOp::Shr => arithmetic(alloc, line, Arithmetic::Shr, left, right),
        BinOp::BitAnd => arithmetic(alloc, line, Arithmetic::And, left, right),
        BinOp::BitXor => arithmetic(alloc, line, Arithmetic::Xor, left, right),
        BinOp::BitOr => arithmetic(alloc, line, Arithmetic::Or, left, right),
        BinOp::Add => sum(alloc, sizes, line, left, right),
        BinOp::Sub => difference(alloc, sizes, line, left, right),
        BinOp::Less => order(alloc, line, Comparison::Less, left, right),
        BinOp::AtMost => order(alloc, line, Comparison::AtMost, left, right),
        BinOp::Greater => order(alloc, line, Comparison::Greater, left, right),
        BinOp::AtLeast => order(alloc, line, Comparison::AtLeast, left, right),
        BinOp::Equal => equality(alloc, line, Comparison::Equal, left, right),
        BinOp::NotEqual => equality(alloc, line, Comparison::NotEqual, left, right),
        BinOp::And => Ok(connected(alloc, Head::And, left, right)?),
        BinOp::Or => Ok(connected(alloc, Head::Or, left, right)?),
    }
}

/// An operator of two operands. `sizes` has the cells of each struct of the file.
#[tactic(auto, using(c_answers::proofs::After::after_laws), unfolding(crate::specs::Operators::binary))]
pub fn binary(
    alloc: Global,
    sizes: &[u32],
    line: Line,
    op: BinOp,
    left: Operand,
    right: Operand,
) -> Result<Operand, Stop>
    ensures { Gives view_operand result (spec.binary sizes.now line op (view_operand left) (view_operand right)) }
{
    let left = valued(alloc, line, left)?;
    let right = valued(alloc, line, right)?;
    binary_values(alloc, sizes, line, op, left, right)
}
