// The functions that are called in a text (C11 6.5.2.2).
ghost use Rattle.std.specs.Prelude.{◌≡◌, ◌++◌, OnOk};
ghost use Rattle.call_clusters.specs.Callees as spec;
ghost use Rattle.program_trees.specs.View.{view_option, view_stmt, view_stmts};
ghost use Rattle.typed_prog.specs.Tree.{values_of};
ghost use Rattle.typed_prog.specs.View.{view_value, view_values};

use program_trees::{Stmt, Turns};
use typed_prog::{Effect, Value, ValueNode};
use wp_base::{List, NoMemory};

// ---- expressions

fn put_called(effect: &Effect, out: &mut List<u32>) -> Result<(), NoMemory>
    ensures { OnOk result (out.new ≡ out.old ++ spec.called_by effect.now) }
{
    match effect {
        Effect::Call(function) => out.push(*function),
        Effect::Assign(_) => Ok(()),
        Effect::Update { .. } => Ok(()),
    }
}

#[cycle(value_callees)]
#[tactic(auto, using(typed_prog::proofs::Equations::view_laws, crate::proofs::Calling::gather_laws))]
fn put_callees(value: &Value, out: &mut List<u32>) -> Result<(), NoMemory>
    ensures { OnOk result (out.new ≡ out.old ++ spec.callees (view_value value.now)) }
{
    match &value.node {
        ValueNode::Constant(_) => Ok(()),
        ValueNode::Null => Ok(()),
        ValueNode::Temporary(_) => Ok(()),
        ValueNode::Apply(_, operands) => put_all_callees(operands.as_slice(), out),
        ValueNode::Logic(_, first, second) => {
            put_callees(first.get(), out)?;
            put_callees(second.get(), out)
        }
        ValueNode::Choose(test, first, second) => {
            put_callees(test.get(), out)?;
            put_callees(first.get(), out)?;
            put_callees(second.get(), out)
        }
        ValueNode::Effect(does, operands) => {
            put_called(does, out)?;
            put_all_callees(operands.as_slice(), out)
        }
    }
}

#[cycle(value_callees)]
#[tactic(auto, using(crate::proofs::Calling::values_laws))]
fn put_all_callees(values: &[Value], out: &mut List<u32>) -> Result<(), NoMemory>
    ensures { OnOk result (out.new ≡ out.old ++ spec.all_callees (values_of (view_values values.now))) }
{
    for i in 0..values.len() {
        put_callees(&values[i], out)?;
    }
    Ok(())
}

#[tactic(auto, using(crate::proofs::Calling::gather_laws))]
fn put_callees_if(value: Option<&Value>, out: &mut List<u32>) -> Result<(), NoMemory>
    ensures { OnOk result (out.new ≡ out.old ++ spec.callees_if (view_option value.entry)) }
{
    match value {
        Some(value) => put_callees(value, out),
        None => Ok(()),
    }
}

// ---- statements

#[cycle(stmt_callees)]
#[tactic(auto, using(program_trees::proofs::Equations::stmt_laws, crate::proofs::Calling::gather_laws))]
fn put_stmt_callees(stmt: &Stmt<'_>, out: &mut List<u32>) -> Result<(), NoMemory>
    ensures { OnOk result (out.new ≡ out.old ++ spec.stmt_callees (view_stmt stmt.now)) }
{
    match stmt {
        Stmt::Evaluate(value) => put_callees(value, out),
        Stmt::Block(_, body) => put_stmts_callees(body.as_slice(), out),
        Stmt::Initial(_, _, value) => put_callees(value, out),
        Stmt::Choose(test, first, second) => {
            put_callees(test, out)?;
            put_stmt_callees(first.get(), out)?;
            put_stmt_callees(second.get(), out)
        }
        Stmt::Loop(_, turns, body) => {
            put_callees_if(turns.before, out)?;
            put_stmt_callees(body.get(), out)?;
            put_behind(*turns, out)
        }
        Stmt::Switch(value, body) => {
            put_callees(value, out)?;
            put_stmts_callees(body.as_slice(), out)
        }
        Stmt::Case(_) => Ok(()),
        Stmt::Default => Ok(()),
        Stmt::Break => Ok(()),
        Stmt::Continue => Ok(()),
        Stmt::Return(value) => put_callees_if(*value, out),
        Stmt::Assert(_) => Ok(()),
    }
}

#[cycle(stmt_callees)]
#[tactic(auto, using(crate::proofs::Calling::stmts_laws))]
pub(crate) fn put_stmts_callees(stmts: &[Stmt<'_>], out: &mut List<u32>) -> Result<(), NoMemory>
    ensures { OnOk result (out.new ≡ out.old ++ spec.stmts_callees (view_stmts stmts.now)) }
{
    for i in 0..stmts.len() {
        put_stmt_callees(&stmts[i], out)?;
    }
    Ok(())
}

#[tactic(auto, using(crate::proofs::Calling::gather_laws))]
fn put_behind(turns: Turns<'_>, out: &mut List<u32>) -> Result<(), NoMemory>
    ensures { OnOk result (out.new ≡ out.old ++ (spec.callees_if (view_option turns.entry.step) ++ spec.callees_if (view_option turns.entry.behind))) }
{
    put_callees_if(turns.step, out)?;
    put_callees_if(turns.behind, out)
}
