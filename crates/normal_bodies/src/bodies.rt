// Statements of core programs, made of those as spelled (C11 6.8). What the recursion goes down stands first.
ghost use Rattle.std.specs.Prelude.{◌≡◌, [], IfOk, true, false};
ghost use Rattle.c_runs.specs.Program.{loop as loop_of, switch};
ghost use Rattle.core_trees.specs.View.{view_cores, view_loop, view_variables};
ghost use Rattle.normal_bodies.specs.Parts as spec;
ghost use Rattle.normal_steps.specs.Into.{DidInto};
ghost use Rattle.c_runs.specs.Normal as normal;
ghost use Rattle.c_runs.specs.Plans.{planned, jumps_, tests_};
ghost use Rattle.program_trees.specs.View.{view_option, view_stmt, view_stmts};
ghost use Rattle.typed_prog.specs.View.{view_value};

use crate::exits::Exits;
use crate::labels::{Place, Sought, index_of, is_label};
use crate::steps::{
    around_all, close, given, loop_from, loop_test, push_around, push_branch, push_claim,
    push_exit, scoped, switch_begun,
};
use core_trees::{Core, FunctionVariable, Loop};
use normal_plans::{effect_of, jumps, planned_made, planned_test, started};
use program_trees::{Stmt, Turns};
use std::alloc::Global;
use typed_prog::Value;
use wp_base::{List, NoMemory};

// What a statement becomes, behind what is there; the answer is the next temporary.
#[cycle(bodies)]
fn stmt_into(
    alloc: Global,
    stmt: &Stmt<'_>,
    variables: &[FunctionVariable],
    exits: Exits,
    next: u32,
    out: &mut List<Core>,
) -> Result<u32, NoMemory>
    ensures { IfOk result (λ n. DidInto out.old out.new (normal.stmt (view_variables variables.now) exits.on_break exits.on_continue next (view_stmt stmt.now)) n) }
{
    match stmt {
        Stmt::Evaluate(value) => effect_of(alloc, variables, value, next, out),
        Stmt::Block(locals, body) => {
            let (body, next) = stmts_made(alloc, body.as_slice(), variables, exits, next)?;
            scoped(alloc, locals, body, out)?;
            Ok(next)
        }
        Stmt::Initial(variable, _, value) => started(alloc, variables, *variable, value, next, out),
        Stmt::Choose(test, first, second) => {
            if jumps(test) {
                by_jumps(
                    alloc,
                    first.get(),
                    second.get(),
                    test,
                    variables,
                    exits,
                    next,
                    out,
                )
            } else {
                by_value(
                    alloc,
                    first.get(),
                    second.get(),
                    test,
                    variables,
                    exits,
                    next,
                    out,
                )
            }
        }
        Stmt::Loop(claims, turns, body) => loop_into(
            alloc,
            body.get(),
            claims,
            *turns,
            variables,
            next,
            out,
        ),
        Stmt::Switch(value, body) => switch_into(
            alloc,
            body.as_slice(),
            value,
            variables,
            exits,
            next,
            out,
        ),
        Stmt::Case(_) => Ok(next),
        Stmt::Default => Ok(next),
        Stmt::Break => push_exit(exits.on_break, next, out),
        Stmt::Continue => push_exit(exits.on_continue, next, out),
        Stmt::Return(value) => given(alloc, variables, *value, next, out),
        Stmt::Assert(claim) => push_claim(alloc, claim, next, out),
    }
}

// Statements one after the other.
#[cycle(bodies)]
fn stmts_into(
    alloc: Global,
    stmts: &[Stmt<'_>],
    variables: &[FunctionVariable],
    exits: Exits,
    next: u32,
    out: &mut List<Core>,
) -> Result<u32, NoMemory>
    ensures { IfOk result (λ n. DidInto out.old out.new (normal.stmts (view_variables variables.now) exits.on_break exits.on_continue next (view_stmts stmts.now)) n) }
{
    let mut next = next;
    for stmt in stmts {
        next = stmt_into(alloc, stmt, variables, exits, next, out)?;
    }
    Ok(next)
}

#[cycle(bodies)]
fn stmt_made(
    alloc: Global,
    stmt: &Stmt<'_>,
    variables: &[FunctionVariable],
    exits: Exits,
    next: u32,
) -> Result<(List<Core>, u32), NoMemory>
    ensures { IfOk result (λ r. DidInto [] r.0 (normal.stmt (view_variables variables.now) exits.on_break exits.on_continue next (view_stmt stmt.now)) r.1) }
{
    let mut made = List::new(alloc);
    let next = stmt_into(alloc, stmt, variables, exits, next, &mut made)?;
    Ok((made, next))
}

#[cycle(bodies)]
fn stmts_made(
    alloc: Global,
    stmts: &[Stmt<'_>],
    variables: &[FunctionVariable],
    exits: Exits,
    next: u32,
) -> Result<(List<Core>, u32), NoMemory>
    ensures { IfOk result (λ r. DidInto [] r.0 (normal.stmts (view_variables variables.now) exits.on_break exits.on_continue next (view_stmts stmts.now)) r.1) }
{
    let mut made = List::new(alloc);
    let next = stmts_into(alloc, stmts, variables, exits, next, &mut made)?;
    Ok((made, next))
}

// ---- choices

// The first way of a choice behind its tests, which leaves the block of both ways.
#[cycle(bodies)]
fn first_way(
    alloc: Global,
    first: &Stmt<'_>,
    test: &Value,
    variables: &[FunctionVariable],
    exits: Exits,
    next: u32,
) -> Result<(List<Core>, u32), NoMemory>
    ensures { IfOk result (λ r. DidInto [] r.0 (spec.first_way (view_variables variables.now) exits.on_break exits.on_continue ((planned (view_variables variables.now) (view_value test.now)).test true 0 next) (view_stmt first.now)) r.1) }
{
    let within = exits.under(2)?;
    let mut made = List::new(alloc);
    let next = planned_test(alloc, variables, test, true, 0, next, &mut made)?;
    let next = stmt_into(alloc, first, variables, within, next, &mut made)?;
    let next = push_exit(1, next, &mut made)?;
    Ok((made, next))
}

#[cycle(bodies)]
fn by_jumps(
    alloc: Global,
    first: &Stmt<'_>,
    second: &Stmt<'_>,
    test: &Value,
    variables: &[FunctionVariable],
    exits: Exits,
    next: u32,
    out: &mut List<Core>,
) -> Result<u32, NoMemory>
    ensures { IfOk result (λ n. DidInto out.old out.new (spec.chosen (view_variables variables.now) exits.on_break exits.on_continue (jumps_ ((planned (view_variables variables.now) (view_value test.now)).test true 0 next)) (view_stmt first.now) (view_stmt second.now)) n) }
{
    let within = exits.under(1)?;
    let (first, next) = first_way(alloc, first, test, variables, exits, next)?;
    let mut both = around_all(alloc, first)?;
    let next = stmt_into(alloc, second, variables, within, next, &mut both)?;
    push_around(both, out)?;
    Ok(next)
}

#[cycle(bodies)]
fn by_value(
    alloc: Global,
    first: &Stmt<'_>,
    second: &Stmt<'_>,
    test: &Value,
    variables: &[FunctionVariable],
    exits: Exits,
    next: u32,
    out: &mut List<Core>,
) -> Result<u32, NoMemory>
    ensures { IfOk result (λ n. DidInto out.old out.new (spec.chosen (view_variables variables.now) exits.on_break exits.on_continue (tests_ ((planned (view_variables variables.now) (view_value test.now)).made next)) (view_stmt first.now) (view_stmt second.now)) n) }
{
    let (test, next) = planned_made(alloc, variables, test, next, out)?;
    let (first, next) = stmt_made(alloc, first, variables, exits, next)?;
    let (second, next) = stmt_made(alloc, second, variables, exits, next)?;
    push_branch(test, first, second, out)?;
    Ok(next)
}

// ---- loops

#[cycle(bodies)]
#[tactic(auto, using(crate::proofs::Looping::loop_done))]
fn loop_into(
    alloc: Global,
    body: &Stmt<'_>,
    claims: &Loop,
    turns: Turns<'_>,
    variables: &[FunctionVariable],
    next: u32,
    out: &mut List<Core>,
) -> Result<u32, NoMemory>
    ensures { IfOk result (λ n. DidInto out.old out.new (spec.looped (view_variables variables.now) (view_loop claims.now) (view_option turns.entry.before) (view_stmt body.now) (view_option turns.entry.step) (view_option turns.entry.behind) next) n) }
{
    let mut before = List::new(alloc);
    let next = loop_test(alloc, variables, turns.before, next, &mut before)?;
    let exits = Exits {
        on_break: 1,
        on_continue: 0,
    };
    let (body, next) = stmt_made(alloc, body, variables, exits, next)?;
    loop_from(alloc, variables, claims, turns, before, body, next, out)
}

// ---- switches

// A statement of a switch behind what leads to it.
#[cycle(bodies)]
#[tactic(auto, using(crate::proofs::Grouping::group_laws))]
fn group_into(
    alloc: Global,
    stmt: &Stmt<'_>,
    variables: &[FunctionVariable],
    exits: Exits,
    place: Place,
    out: &mut List<Core>,
) -> Result<Place, NoMemory>
    ensures { IfOk result (λ next. spec.grouped_at (view_cores out.new) next ≡ spec.grouped (view_variables variables.now) exits.on_continue (view_cores out.old) place (view_stmt stmt.now)) }
{
    if is_label(stmt) {
        return Ok(place.opened());
    }
    let left = place.behind();
    let within = exits.in_switch(left)?;
    close(alloc, place.is_open, out)?;
    let next = stmt_into(alloc, stmt, variables, within, place.next, out)?;
    Ok(Place {
        is_open: false,
        left,
        next,
    })
}

#[cycle(bodies)]
fn groups_into(
    alloc: Global,
    body: &[Stmt<'_>],
    variables: &[FunctionVariable],
    exits: Exits,
    next: u32,
    out: &mut List<Core>,
) -> Result<u32, NoMemory>
    ensures { IfOk result (λ n. DidInto [] out.new (normal.groups (view_variables variables.now) exits.on_continue next false (view_cores out.old) (view_stmts body.now)) n) }
{
    let left = index_of(Sought::End, body)?;
    let mut place = Place {
        is_open: false,
        left,
        next,
    };
    for stmt in body {
        place = group_into(alloc, stmt, variables, exits, place, out)?;
    }
    close(alloc, place.is_open, out)?;
    Ok(place.next)
}

#[cycle(bodies)]
fn switch_into(
    alloc: Global,
    body: &[Stmt<'_>],
    value: &Value,
    variables: &[FunctionVariable],
    exits: Exits,
    next: u32,
    out: &mut List<Core>,
) -> Result<u32, NoMemory>
    ensures { IfOk result (λ n. DidInto out.old out.new (normal.stmt (view_variables variables.now) exits.on_break exits.on_continue next (switch (view_value value.now) (view_stmts body.now))) n) }
{
    let (lead, next) = switch_begun(alloc, variables, value, body, next, out)?;
    let mut inner = lead;
    let next = groups_into(alloc, body, variables, exits, next, &mut inner)?;
    push_around(inner, out)?;
    Ok(next)
}

/// The body of a function as one of a core program.
#[tactic(auto, using(crate::proofs::Following::body_done))]
pub fn normalise_body(
    alloc: Global,
    variables: &[FunctionVariable],
    body: &[Stmt<'_>],
) -> Result<List<Core>, NoMemory>
    ensures { IfOk result (λ made. view_cores made ≡ (normal.stmts (view_variables variables.now) 0 0 0 (view_stmts body.now)).did) }
{
    let exits = Exits {
        on_break: 0,
        on_continue: 0,
    };
    let (made, _) = stmts_made(alloc, body, variables, exits, 0)?;
    Ok(made)
}
