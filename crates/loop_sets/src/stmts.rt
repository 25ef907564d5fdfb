// Statements, with what the blocks around them declare (C11 6.2.1p4).
ghost use Rattle.std.specs.Prelude.{◌≡◌, ◌++◌, ◌&&◌, IfOk};
ghost use Rattle.loop_sets.specs.Scopes.{scope_of};
ghost use Rattle.plain_runs.specs.Fitting.{is_param};
ghost use Rattle.plain_words.specs.Sets as spec;
ghost use Rattle.program_trees.specs.View.{view_stmt, view_stmts};

use crate::regions::set_stands;
use program_trees::Stmt;
use std::alloc::Global;
use wp_base::{List, NoMemory};

// The names around a block, and those that it declares.
fn with_block(alloc: Global, names: &[u32], variables: &[u32]) -> Result<List<u32>, NoMemory>
    ensures { IfOk result (λ inside. inside ≡ names.now ++ variables.now) }
{
    let mut inside = Vec::from_slice(alloc, names)?;
    inside.extend_from_slice(variables)?;
    Ok(List::from_vec(inside))
}

fn both(first: bool, second: bool) -> bool
    ensures { result ≡ (first && second) }
{
    first && second
}

#[cycle(sets)]
#[tactic(auto, using(program_trees::proofs::Equations::stmt_laws, crate::proofs::Standing::part_laws))]
fn stmt_stands(alloc: Global, params: u32, names: &[u32], stmt: &Stmt<'_>) -> Result<bool, NoMemory>
    ensures { IfOk result (λ stands. stands ≡ spec.sets_stand (scope_of names.now params) (view_stmt stmt.now)) }
{
    match stmt {
        Stmt::Block(variables, body) => {
            let inside = with_block(alloc, names, variables.as_slice())?;
            let stands = stmts_stand(alloc, params, inside.as_slice(), body.as_slice())?;
            Ok(stands)
        }
        Stmt::Choose(_, first, second) => {
            let first_stands = stmt_stands(alloc, params, names, first.get())?;
            let second_stands = stmt_stands(alloc, params, names, second.get())?;
            Ok(both(first_stands, second_stands))
        }
        Stmt::Loop(claims, _, body) => {
            let body_stands = stmt_stands(alloc, params, names, body.get())?;
            Ok(both(set_stands(params, names, claims), body_stands))
        }
        Stmt::Switch(_, body) => stmts_stand(alloc, params, names, body.as_slice()),
        Stmt::Evaluate(_) => Ok(true),
        Stmt::Initial(_, _, _) => Ok(true),
        Stmt::Case(_) => Ok(true),
        Stmt::Default => Ok(true),
        Stmt::Break => Ok(true),
        Stmt::Continue => Ok(true),
        Stmt::Return(_) => Ok(true),
        Stmt::Assert(_) => Ok(true),
    }
}

#[cycle(sets)]
#[tactic(auto, using(crate::proofs::Standing::stmts_laws))]
fn stmts_stand(
    alloc: Global,
    params: u32,
    names: &[u32],
    stmts: &[Stmt<'_>],
) -> Result<bool, NoMemory>
    ensures { IfOk result (λ stand. stand ≡ spec.all_sets_stand (scope_of names.now params) (view_stmts stmts.now)) }
{
    for i in 0..stmts.len() {
        let stands = stmt_stands(alloc, params, names, &stmts[i])?;
        if !stands {
            return Ok(false);
        }
    }
    Ok(true)
}

/// In the body of a function with so many parameters the sets of loops name variables that are in scope.
#[tactic(auto, using(crate::proofs::Standing::whole_body))]
pub fn sets_stand(alloc: Global, params: u32, body: &[Stmt<'_>]) -> Result<bool, NoMemory>
    ensures { IfOk result (λ stand. stand ≡ spec.all_sets_stand (is_param params) (view_stmts body.now)) }
{
    let names = List::new(alloc);
    let stand = stmts_stand(alloc, params, names.as_slice(), body)?;
    Ok(stand)
}
