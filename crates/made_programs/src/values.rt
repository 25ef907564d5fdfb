// Which variables are declared with a value.
ghost use Rattle.std.specs.Prelude.{◌≡◌, ◌++◌, IfOk, OnOk, map};
ghost use Rattle.std.specs.Option.{is_some, option_map};
ghost use Rattle.c_programs.specs.Bodies as spec;
ghost use Rattle.c_programs.specs.Files.{values_of as values_of_body};
ghost use Rattle.typed_prog.specs.View.{view_value};
ghost use Rattle.typed_unit.specs.View.{view_body, view_declared, view_inits, view_stmt, view_stmts};

use std::alloc::Global;
use typed_prog::Value;
use typed_unit::{Body, Declared, Stmt, StmtNode};
use wp_base::{List, NoMemory};

fn has_init(local: &Declared) -> bool
    ensures { result ≡ spec.has_init (view_declared local.now) }
{
    match &local.init {
        Some(_) => true,
        None => false,
    }
}

fn is_given(init: &Option<Value>) -> bool
    ensures { result ≡ is_some (option_map view_value init.now) }
{
    match init {
        Some(_) => true,
        None => false,
    }
}

#[tactic(auto, using(crate::proofs::Listing::init_laws))]
fn put_inits(locals: &[Declared], out: &mut List<bool>) -> Result<(), NoMemory>
    ensures { OnOk result (out.new ≡ out.old ++ map spec.has_init (map view_declared locals.now)) }
{
    for i in 0..locals.len() {
        out.push(has_init(&locals[i]))?;
    }
    Ok(())
}

#[cycle(valued)]
#[tactic(auto, using(typed_unit::proofs::Equations::stmt_laws, crate::proofs::Listing::put_laws))]
fn put_valued(stmt: &Stmt<'_>, out: &mut List<bool>) -> Result<(), NoMemory>
    ensures { OnOk result (out.new ≡ out.old ++ spec.valued (view_stmt stmt.now)) }
{
    match &stmt.node {
        StmtNode::Block(body) => put_all_valued(body.as_slice(), out),
        StmtNode::Switch(_, body) => put_all_valued(body.as_slice(), out),
        StmtNode::Locals(locals) => put_inits(locals.as_slice(), out),
        StmtNode::If(_, first, second) => {
            put_valued(first.get(), out)?;
            put_valued(second.get(), out)
        }
        StmtNode::Loop(_, _, body) => put_valued(body.get(), out),
        StmtNode::Empty => Ok(()),
        StmtNode::Expr(_) => Ok(()),
        StmtNode::Case(_) => Ok(()),
        StmtNode::Default => Ok(()),
        StmtNode::Break => Ok(()),
        StmtNode::Continue => Ok(()),
        StmtNode::Return(_) => Ok(()),
        StmtNode::Assert(_) => Ok(()),
    }
}

#[cycle(valued)]
#[tactic(auto, using(crate::proofs::Listing::valued_laws))]
fn put_all_valued(stmts: &[Stmt<'_>], out: &mut List<bool>) -> Result<(), NoMemory>
    ensures { OnOk result (out.new ≡ out.old ++ spec.all_valued (view_stmts stmts.now)) }
{
    for i in 0..stmts.len() {
        put_valued(&stmts[i], out)?;
    }
    Ok(())
}

/// Which variables of a function with so many parameters have values from the beginning on.
pub(crate) fn values_of(
    alloc: Global,
    params: usize,
    body: &Body<'_>,
) -> Result<List<bool>, NoMemory>
    ensures { IfOk result (λ values. values ≡ values_of_body params (view_body body.now)) }
{
    let mut values = List::from_vec(vec![in alloc; true; params]?);
    put_valued(&body.stmt, &mut values)?;
    Ok(values)
}

/// Which variables of the file have initialisers.
#[tactic(auto, using(crate::proofs::Listing::file_laws))]
pub(crate) fn valued_in(alloc: Global, inits: &[Option<Value>]) -> Result<List<bool>, NoMemory>
    ensures { IfOk result (λ values. values ≡ map is_some (view_inits inits.now)) }
{
    let mut values = List::new(alloc);
    for i in 0..inits.len() {
        values.push(is_given(&inits[i]))?;
    }
    Ok(values)
}
