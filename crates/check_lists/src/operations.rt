// Checks of operations themselves, behind those of their operands (C11 6.5.3 to 6.5.9).
ghost use Rattle.std.specs.Prelude.{◌≡◌, [], ◌∷◌, ◌++◌, IfOk};
ghost use Rattle.check_lists.specs.View as spec;
ghost use Rattle.core_trees.specs.View.{view_variables};
ghost use Rattle.c_runs.specs.Checks as checks;
ghost use Rattle.typed_prog.specs.Tree.{values_of};
ghost use Rattle.typed_prog.specs.View.{view_values};

use crate::checks::{Check, Undefined};
use crate::objects::{push_address, push_read};
use crate::pushes::{push_check, push_if};
use core_trees::FunctionVariable;
use std::alloc::Global;
use typed_prog::{Arithmetic, CoreType, Op, Value};
use value_facts::{is_order, is_signed_at, may_be_minus_one, may_be_zero, second_constant};
use wp_base::{Line, List, NoMemory};

// A quotient or a remainder.
#[tactic(auto, using(crate::proofs::Adding::both_added))]
fn push_division(
    alloc: Global,
    signed: bool,
    line: Line,
    divisor: Option<i128>,
    way: &[u32],
    out: &mut List<Check>,
) -> Result<(), NoMemory>
    ensures { IfOk result (λ _. spec.Added out.old out.new way.now (checks.division_checks signed line divisor)) }
{
    push_if(
        alloc,
        may_be_zero(divisor),
        Undefined::DivZero,
        line,
        way,
        out,
    )?;
    let overflows = signed && may_be_minus_one(divisor);
    push_if(alloc, overflows, Undefined::Overflow, line, way, out)
}

// A shift to the left.
#[tactic(auto, using(crate::proofs::Adding::behind_one))]
fn push_left_shift(
    alloc: Global,
    signed: bool,
    line: Line,
    way: &[u32],
    out: &mut List<Check>,
) -> Result<(), NoMemory>
    ensures { IfOk result (λ _. spec.Added out.old out.new way.now (spec.left_shift signed line)) }
{
    push_check(alloc, Undefined::Shift, line, 0, way, out)?;
    push_if(alloc, signed, Undefined::Overflow, line, way, out)
}

#[tactic(auto, using(crate::proofs::Adding::none_added))]
fn push_arithmetic(
    alloc: Global,
    op: Arithmetic,
    signed: bool,
    line: Line,
    second: Option<i128>,
    way: &[u32],
    out: &mut List<Check>,
) -> Result<(), NoMemory>
    ensures { IfOk result (λ _. spec.Added out.old out.new way.now (checks.arithmetic_checks signed line op second)) }
{
    match op {
        Arithmetic::Mul | Arithmetic::Add | Arithmetic::Sub => {
            push_if(alloc, signed, Undefined::Overflow, line, way, out)
        }
        Arithmetic::Div | Arithmetic::Rem => push_division(alloc, signed, line, second, way, out),
        Arithmetic::Shl => push_left_shift(alloc, signed, line, way, out),
        Arithmetic::Shr => push_check(alloc, Undefined::Shift, line, 0, way, out),
        Arithmetic::And | Arithmetic::Xor | Arithmetic::Or => Ok(()),
    }
}

/// The checks of an operation of this type and line.
#[tactic(auto, using(crate::proofs::Adding::none_added))]
pub(crate) fn push_op(
    alloc: Global,
    op: &Op,
    variables: &[FunctionVariable],
    ty: &CoreType,
    line: Line,
    operands: &[Value],
    way: &[u32],
    out: &mut List<Check>,
) -> Result<(), NoMemory>
    ensures { IfOk result (λ _. spec.Added out.old out.new way.now (checks.op_checks (view_variables variables.now) ty.now line op.now (values_of (view_values operands.now)))) }
{
    match op {
        Op::Read(path) => push_read(alloc, variables, path, way, out),
        Op::Address(path, accessed) => push_address(alloc, path, *accessed, way, out),
        Op::Decay(path, accessed) => push_address(alloc, path, *accessed, way, out),
        Op::Negate => push_if(alloc, is_signed_at(ty), Undefined::Overflow, line, way, out),
        Op::Arithmetic(op) => {
            let second = second_constant(operands);
            push_arithmetic(alloc, *op, is_signed_at(ty), line, second, way, out)
        }
        Op::ComparePointers(how) => {
            push_if(alloc, is_order(*how), Undefined::Comparing, line, way, out)
        }
        Op::Offset { accessed, .. } => {
            push_if(alloc, !*accessed, Undefined::Pointing, line, way, out)
        }
        Op::Difference { .. } => push_check(alloc, Undefined::Comparing, line, 0, way, out),
        Op::Complement => Ok(()),
        Op::Not => Ok(()),
        Op::Compare(_) => Ok(()),
        Op::Convert => Ok(()),
        Op::Requalify => Ok(()),
        Op::Cast => Ok(()),
    }
}
