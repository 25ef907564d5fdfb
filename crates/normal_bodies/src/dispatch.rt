// What leads to the labels of a switch: a test for each of them (C11 6.8.4.2).
ghost use Rattle.std.specs.Prelude.{◌≡◌, [], ◌∷◌, IfOk, OnOk};
ghost use Rattle.c_runs.specs.Core.{join, one, branch, exit, end};
ghost use Rattle.core_trees.specs.View.{view_cores};
ghost use Rattle.normal_bodies.specs.Sought as spec;
ghost use Rattle.c_runs.specs.Normal as normal;
ghost use Rattle.program_trees.specs.View.{view_stmt, view_stmts};
ghost use Rattle.typed_prog.specs.Tree as t;
ghost use Rattle.typed_prog.specs.View.{view_value};

use crate::labels::{Sought, case_number, index_of, is_same};
use core_trees::Core;
use normal_steps::push;
use program_trees::Stmt;
use std::alloc::Global;
use typed_copies::copy_value;
use typed_prog::{Comparison, CoreType, Op, Value, ValueNode};
use wp_base::{Kind, Line, List, NoMemory};

// 1 or 0, as an `int`.
#[tactic(auto, using(typed_prog::proofs::Equations::view_laws))]
fn truth(alloc: Global, line: Line, is_so: bool) -> Value
    ensures { view_value result ≡ normal.truth_of line is_so }
{
    let number = if is_so { 1 } else { 0 };
    Value {
        node: ValueNode::Constant(number),
        ty: CoreType::of_kind(alloc, Kind::Int),
        line,
    }
}

#[tactic(auto, using(typed_prog::proofs::Equations::view_laws))]
fn number_like(alloc: Global, number: i128, like: &Value) -> Result<Value, NoMemory>
    ensures { IfOk result (λ made. view_value made ≡ t.typed (t.constant number) like.now.ty like.now.line) }
{
    let ty = like.ty.copy(alloc)?;
    Ok(Value {
        node: ValueNode::Constant(number),
        ty,
        line: like.line,
    })
}

fn pair(alloc: Global, first: Value, second: Value) -> Result<List<Value>, NoMemory>
    ensures { IfOk result (λ both. both ≡ first ∷ second ∷ []) }
{
    Ok(List::from_vec(Vec::from_array(alloc, [first, second])?))
}

#[tactic(auto, using(typed_prog::proofs::Equations::view_laws))]
fn compared(alloc: Global, value: &Value, number: i128) -> Result<Value, NoMemory>
    ensures { IfOk result (λ made. view_value made ≡ spec.compared (view_value value.now) number) }
{
    let other = number_like(alloc, number, value)?;
    let operands = pair(alloc, copy_value(alloc, value)?, other)?;
    Ok(Value {
        node: ValueNode::Apply(Op::Compare(Comparison::Equal), operands),
        ty: CoreType::of_kind(alloc, Kind::Int),
        line: value.line,
    })
}

/// Whether a value is that of a label.
#[tactic(auto, using(typed_prog::proofs::Equations::view_laws, crate::proofs::Dispatching::known_test))]
fn label_test(alloc: Global, value: &Value, number: i128) -> Result<Value, NoMemory>
    ensures { IfOk result (λ made. view_value made ≡ normal.label_test (view_value value.now) number) }
{
    match &value.node {
        ValueNode::Constant(known) => Ok(truth(alloc, value.line, is_same(*known, number))),
        ValueNode::Null
        | ValueNode::Temporary(_)
        | ValueNode::Apply(_, _)
        | ValueNode::Logic(_, _, _)
        | ValueNode::Choose(_, _, _)
        | ValueNode::Effect(_, _) => compared(alloc, value, number),
    }
}

// Leaves a block where a test is true.
#[tactic(auto, using(core_trees::proofs::Equations::core_laws))]
fn put_branch(alloc: Global, test: Value, block: u32, out: &mut List<Core>) -> Result<(), NoMemory>
    ensures { IfOk result (λ _. view_cores out.new ≡ join (view_cores out.old) (one (branch (view_value test) (one (exit block)) end))) }
{
    let mut leaving = List::new(alloc);
    push(Core::Exit(block), &mut leaving)?;
    push(Core::Branch(test, leaving, List::new(alloc)), out)
}

#[tactic(auto, using(crate::proofs::Dispatching::test_laws))]
fn put_test(
    alloc: Global,
    value: &Value,
    stmt: &Stmt<'_>,
    stmts: &[Stmt<'_>],
    out: &mut List<Core>,
) -> Result<(), NoMemory>
    ensures { OnOk result (view_cores out.new ≡ join (view_cores out.old) (spec.test_of (view_value value.now) (view_stmts stmts.now) (view_stmt stmt.now))) }
{
    let Some(number) = case_number(stmt) else {
        return Ok(());
    };
    let block = index_of(Sought::Number(number), stmts)?;
    let test = label_test(alloc, value, number)?;
    put_branch(alloc, test, block, out)
}

/// One test for each label, and then to `default` or to the end.
#[tactic(auto, using(crate::proofs::Dispatching::dispatch_laws))]
pub(crate) fn dispatched(
    alloc: Global,
    value: &Value,
    stmts: &[Stmt<'_>],
) -> Result<List<Core>, NoMemory>
    ensures { IfOk result (λ made. view_cores made ≡ normal.dispatch (view_value value.now) (view_stmts stmts.now) (view_stmts stmts.now)) }
{
    let mut out = List::new(alloc);
    for stmt in stmts {
        put_test(alloc, value, stmt, stmts, &mut out)?;
    }
    let block = index_of(Sought::Otherwise, stmts)?;
    push(Core::Exit(block), &mut out)?;
    Ok(out)
}
