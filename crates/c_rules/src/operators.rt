// The operators of one and of two operands (C11 6.5.3.3, 6.5.5 to 6.5.14).
ghost use Rattle.std.specs.Prelude.{◌≡◌, IfOk};
ghost use Rattle.c_answers.specs.Answers.{Gives};
ghost use Rattle.c_operands.specs.Operands.{view_operand, view_rvalue};
ghost use Rattle.c_rules.specs.Operators as spec;

use crate::integers::{
    arithmetic, compared, constant_in, known_of_one, known_of_two, node_of_one, plus, promoted,
    shift,
};
use crate::pointers::{are_alike, difference_of, equal, is_scalar, moved, ordered, stride};
use c_answers::refused;
use c_kinds::{Machdep, common};
use c_operands::{Operand, Rvalue, folded, valued};
use c_syntax::{BinOp, UnOp};
use std::alloc::Global;
use typed_prog::{Arithmetic, Comparison, Connective, Op, ValueNode};
use wp_base::{Kind, Line, NoMemory, Rule, Stop, box_both};

/// A value that is compared with 0: an integer or a pointer.
pub fn scalar(line: Line, of: Rvalue) -> Result<Rvalue, Stop>
    ensures { Gives view_rvalue result (spec.scalar line (view_rvalue of)) }
{
    if is_scalar(&of.value.ty) {
        Ok(of)
    } else {
        Err(refused(Rule::Typing, line))
    }
}

/// Unary `-` (C11 6.5.3.3p3).
#[tactic(auto, using(c_answers::proofs::After::after_laws), unfolding(crate::specs::Operators::minus))]
pub fn minus(alloc: Global, model: Machdep, line: Line, of: Operand) -> Result<Operand, Stop>
    ensures { Gives view_operand result (spec.minus model line (view_operand of)) }
{
    let of = valued(alloc, line, of)?;
    promoted(alloc, model, line, Op::Negate, UnOp::Minus, of)
}

/// `~` (C11 6.5.3.3p4).
#[tactic(auto, using(c_answers::proofs::After::after_laws), unfolding(crate::specs::Operators::complement))]
pub fn complement(alloc: Global, model: Machdep, line: Line, of: Operand) -> Result<Operand, Stop>
    ensures { Gives view_operand result (spec.complement model line (view_operand of)) }
{
    let of = valued(alloc, line, of)?;
    promoted(alloc, model, line, Op::Complement, UnOp::BitNot, of)
}

/// Unary `+` (C11 6.5.3.3p2).
#[tactic(auto, using(c_answers::proofs::After::after_laws), unfolding(crate::specs::Operators::unary_plus))]
pub fn unary_plus(alloc: Global, model: Machdep, line: Line, of: Operand) -> Result<Operand, Stop>
    ensures { Gives view_operand result (spec.unary_plus model line (view_operand of)) }
{
    let of = valued(alloc, line, of)?;
    plus(alloc, model, line, of)
}

/// `!` (C11 6.5.3.3p5).
#[tactic(auto, using(c_answers::proofs::After::after_laws), unfolding(crate::specs::Operators::not_of))]
pub fn not_of(alloc: Global, model: Machdep, line: Line, of: Operand) -> Result<Operand, Stop>
    ensures { Gives view_operand result (spec.not_of model line (view_operand of)) }
{
    let of = valued(alloc, line, of)?;
    let of = scalar(line, of)?;
    Ok(negation(alloc, model, line, of)?)
}

fn negation(alloc: Global, model: Machdep, line: Line, of: Rvalue) -> Result<Operand, NoMemory>
    ensures { IfOk result (λ x. view_operand x ≡ spec.negation model line (view_rvalue of)) }
{
    let known = known_of_one(model, UnOp::Not, constant_in(&of));
    let is_constant = of.is_constant;
    let node = node_of_one(alloc, Op::Not, of.value)?;
    Ok(folded(alloc, Kind::Int, line, node, is_constant, known))
}

// A pointer moved by an integer behind it.
fn offset(
    alloc: Global,
    sizes: &[u32],
    line: Line,
    minus: bool,
    left: Rvalue,
    right: Rvalue,
) -> Result<Operand, Stop>
    ensures { Gives view_operand result (spec.offset sizes.now line minus (view_rvalue left) (view_rvalue right)) }
{
    let (Some(size), Some(_)) = (stride(sizes, &left.value.ty), right.value.ty.kind()) else {
        return Err(refused(Rule::Typing, line));
    };
    Ok(moved(alloc, line, minus, false, size, left.value, right.value)?)
}

// A pointer moved by an integer before it.
fn swapped(
    alloc: Global,
    sizes: &[u32],
    line: Line,
    left: Rvalue,
    right: Rvalue,
) -> Result<Operand, Stop>
    ensures { Gives view_operand result (spec.swapped sizes.now line (view_rvalue left) (view_rvalue right)) }
{
    let (Some(_), Some(size)) = (left.value.ty.kind(), stride(sizes, &right.value.ty)) else {
        return Err(refused(Rule::Typing, line));
    };
    Ok(moved(alloc, line, false, true, size, left.value, right.value)?)
}

/// `+` (C11 6.5.6).
#[tactic(auto, unfolding(crate::specs::Operators::sum))]
fn sum(
    alloc: Global,
    model: Machdep,
    sizes: &[u32],
    line: Line,
    left: Rvalue,
    right: Rvalue,
) -> Result<Operand, Stop>
    ensures { Gives view_operand result (spec.sum model sizes.now line (view_rvalue left) (view_rvalue right)) }
{
    if left.value.ty.is_pointer() {
        return offset(alloc, sizes, line, false, left, right);
    }
    if right.value.ty.is_pointer() {
        return swapped(alloc, sizes, line, left, right);
    }
    arithmetic(alloc, model, line, Arithmetic::Add, BinOp::Add, left, right)
}

// The difference of two pointers.
fn apart(
    alloc: Global,
    model: Machdep,
    sizes: &[u32],
    line: Line,
    left: Rvalue,
    right: Rvalue,
) -> Result<Operand, Stop>
    ensures { Gives view_operand result (spec.apart model sizes.now line (view_rvalue left) (view_rvalue right)) }
{
    if !are_alike(alloc, &left.value.ty, &right.value.ty)? {
        return Err(refused(Rule::Typing, line));
    }
    match stride(sizes, &left.value.ty) {
        Some(size) => Ok(difference_of(alloc, model, line, size, left.value, right.value)?),
        None => Err(refused(Rule::Typing, line)),
    }
}

/// Binary `-` (C11 6.5.6).
#[tactic(auto, unfolding(crate::specs::Operators::difference))]
fn difference(
    alloc: Global,
    model: Machdep,
    sizes: &[u32],
    line: Line,
    left: Rvalue,
    right: Rvalue,
) -> Result<Operand, Stop>
    ensures { Gives view_operand result (spec.difference model sizes.now line (view_rvalue left) (view_rvalue right)) }
{
    if !left.value.ty.is_pointer() {
        return arithmetic(alloc, model, line, Arithmetic::Sub, BinOp::Sub, left, right);
    }
    if right.value.ty.is_pointer() {
        return apart(alloc, model, sizes, line, left, right);
    }
    offset(alloc, sizes, line, true, left, right)
}

/// `<`, `<=`, `>` and `>=` (C11 6.5.8).
#[tactic(auto, unfolding(crate::specs::Operators::order))]
fn order(
    alloc: Global,
    model: Machdep,
    line: Line,
    op: Comparison,
    how: BinOp,
    left: Rvalue,
    right: Rvalue,
) -> Result<Operand, Stop>
    ensures { Gives view_operand result (spec.order model line op how (view_rvalue left) (view_rvalue right)) }
{
    if let (Some(first), Some(second)) = (left.value.ty.kind(), right.value.ty.kind()) {
        let kind = common(model, first, second);
        return Ok(compared(alloc, model, line, op, how, left, right, kind)?);
    }
    ordered(alloc, line, op, left.value, right.value)
}

/// `==` and `!=` (C11 6.5.9).
#[tactic(auto, unfolding(crate::specs::Operators::equality))]
fn equality(
    alloc: Global,
    model: Machdep,
    line: Line,
    op: Comparison,
    how: BinOp,
    left: Rvalue,
    right: Rvalue,
) -> Result<Operand, Stop>
    ensures { Gives view_operand result (spec.equality model line op how (view_rvalue left) (view_rvalue right)) }
{
    if let (Some(first), Some(second)) = (left.value.ty.kind(), right.value.ty.kind()) {
        let kind = common(model, first, second);
        return Ok(compared(alloc, model, line, op, how, left, right, kind)?);
    }
    equal(alloc, line, op, left.value, right.value)
}

/// `&&` and `||` (C11 6.5.13, 6.5.14).
#[tactic(auto, using(c_answers::proofs::After::after_laws), unfolding(crate::specs::Operators::logic))]
fn logic(
    alloc: Global,
    model: Machdep,
    line: Line,
    op: Connective,
    how: BinOp,
    left: Rvalue,
    right: Rvalue,
) -> Result<Operand, Stop>
    ensures { Gives view_operand result (spec.logic model line op how (view_rvalue left) (view_rvalue right)) }
{
    let left = scalar(line, left)?;
    let right = scalar(line, right)?;
    Ok(connected(alloc, model, line, op, how, left, right)?)
}

#[tactic(auto, using(typed_prog::proofs::Equations::view_laws))]
fn connected(
    alloc: Global,
    model: Machdep,
    line: Line,
    op: Connective,
    how: BinOp,
    left: Rvalue,
    right: Rvalue,
) -> Result<Operand, NoMemory>
    ensures { IfOk result (λ x. view_operand x ≡ spec.connected model line op how (view_rvalue left) (view_rvalue right)) }
{
    let known = known_of_two(model, how, constant_in(&left), constant_in(&right));
    let is_constant = left.is_constant && right.is_constant;
    let (first, second) = box_both(alloc, left.value, right.value)?;
    let node = ValueNode::Logic(op, first, second);
    Ok(folded(alloc, Kind::Int, line, node, is_constant, known))
}

fn binary_values(
    alloc: Global,
    model: Machdep,
    sizes: &[u32],
    line: Line,
    how: BinOp,
    left: Rvalue,
    right: Rvalue,
) -> Result<Operand, Stop>
    ensures { Gives view_operand result (spec.binary_values model sizes.now line how (view_rvalue left) (view_rvalue right)) }
{
    match how {
        BinOp::Mul => arithmetic(alloc, model, line, Arithmetic::Mul, how, left, right),
        BinOp::Div => arithmetic(alloc, model, line, Arithmetic::Div, how, left, right),
        BinOp::Rem => arithmetic(alloc, model, line, Arithmetic::Rem, how, left, right),
        BinOp::BitAnd => arithmetic(alloc, model, line, Arithmetic::And, how, left, right),
        BinOp::BitXor => arithmetic(alloc, model, line, Arithmetic::Xor, how, left, right),
        BinOp::BitOr => arithmetic(alloc, model, line, Arithmetic::Or, how, left, right),
        BinOp::Add => sum(alloc, model, sizes, line, left, right),
        BinOp::Sub => difference(alloc, model, sizes, line, left, right),
        BinOp::Shl => shift(alloc, model, line, Arithmetic::Shl, how, left, right),
        BinOp::Shr => shift(alloc, model, line, Arithmetic::Shr, how, left, right),
        BinOp::Less => order(alloc, model, line, Comparison::Less, how, left, right),
        BinOp::AtMost => order(alloc, model, line, Comparison::AtMost, how, left, right),
        BinOp::Greater => order(alloc, model, line, Comparison::Greater, how, left, right),
        BinOp::AtLeast => order(alloc, model, line, Comparison::AtLeast, how, left, right),
        BinOp::Equal => equality(alloc, model, line, Comparison::Equal, how, left, right),
        BinOp::NotEqual => equality(alloc, model, line, Comparison::NotEqual, how, left, right),
        BinOp::And => logic(alloc, model, line, Connective::And, how, left, right),
        BinOp::Or => logic(alloc, model, line, Connective::Or, how, left, right),
    }
}

/// An operator of two operands (C11 6.5.5 to 6.5.14). `sizes` has the cells of each struct of the file.
#[tactic(auto, using(c_answers::proofs::After::after_laws), unfolding(crate::specs::Operators::binary))]
pub fn binary(
    alloc: Global,
    model: Machdep,
    sizes: &[u32],
    line: Line,
    how: BinOp,
    left: Operand,
    right: Operand,
) -> Result<Operand, Stop>
    ensures { Gives view_operand result (spec.binary model sizes.now line how (view_operand left) (view_operand right)) }
{
    let left = valued(alloc, line, left)?;
    let right = valued(alloc, line, right)?;
    binary_values(alloc, model, sizes, line, how, left, right)
}
