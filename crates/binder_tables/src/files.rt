// The table of a typed file and its functions as they run.
ghost use Rattle.std.specs.Prelude.{◌≡◌, ◌++◌, [], IfOk, OnOk, map};
ghost use Rattle.std.specs.Option.{option_map};
ghost use Rattle.binder_names.specs.Tables as spec;
ghost use Rattle.binder_tables.specs.View.{lent_function, view_all_known, view_entries, view_table};
ghost use Rattle.c_syntax.specs.View.{view_contract};
ghost use Rattle.program_trees.specs.Files.{at};
ghost use Rattle.program_trees.specs.View.{view_function, view_program};
ghost use Rattle.typed_unit.specs.View.{view_annotated, view_body, view_part, view_stmt, view_typed};

use crate::binders::Known;
use crate::entries::{Entry, put_all_noted, put_contract};
use crate::known::known_in;
use crate::notes::{put_all_claimed, put_notes};
use crate::tables::Table;
use c_syntax::Contract;
use program_trees::{Function, Program};
use std::alloc::Global;
use typed_unit::{Annotated, Body, Part, Typed};
use wp_base::{List, NoMemory};

fn lent<'a, 'b>(function: &'a Option<Function<'b>>) -> Option<&'a Function<'b>>
    ensures { option_map lent_function result ≡ option_map view_function function.now }
{
    match function {
        Some(function) => Some(function),
        None => None,
    }
}

// The function with this number.
#[tactic(auto, using(crate::proofs::Functions_at::at_laws))]
fn function_at<'a, 'b>(
    functions: &'a [Option<Function<'b>>],
    number: u32,
) -> Option<&'a Function<'b>>
    ensures { option_map lent_function result ≡ at (map (option_map view_function) functions.now) number }
{
    let place = number as usize;
    if place < functions.len() {
        lent(&functions[place])
    } else {
        None
    }
}

// ---- contracts

#[tactic(auto, using(crate::proofs::Gathering::entry_laws))]
fn put_contract_of<'a, 'b>(
    alloc: Global,
    known: &[Known],
    contract: &Contract,
    function: Option<&'a Function<'b>>,
    out: &mut Vec<Entry<'a>>,
) -> Result<(), NoMemory>
    ensures { OnOk result (view_entries out.new.items ≡ view_entries out.old.items ++ spec.contract_of (view_all_known known.now) (view_contract contract.now) (option_map lent_function function.entry)) }
{
    match function {
        Some(function) => put_contract(alloc, known, contract, &function.contract, out),
        None => Ok(()),
    }
}

#[tactic(auto, using(crate::proofs::Gathering::entry_laws))]
fn put_decl<'a, 'b>(
    alloc: Global,
    known: &[Known],
    functions: &'a [Option<Function<'b>>],
    part: &Part<'_>,
    out: &mut Vec<Entry<'a>>,
) -> Result<(), NoMemory>
    ensures { OnOk result (view_entries out.new.items ≡ view_entries out.old.items ++ spec.decl_named (view_all_known known.now) (at (map (option_map view_function) functions.now)) (view_part part.now).decl) }
{
    match &part.decl {
        Annotated::Function(number, _, contract, _) => {
            let function = function_at(functions, *number);
            put_contract_of(alloc, known, contract, function, out)
        }
        Annotated::Logic(_) => Ok(()),
    }
}

fn put_decls<'a, 'b>(
    alloc: Global,
    known: &[Known],
    functions: &'a [Option<Function<'b>>],
    parts: &[Part<'_>],
    out: &mut Vec<Entry<'a>>,
) -> Result<(), NoMemory>
    ensures { OnOk result (view_entries out.new.items ≡ view_entries out.old.items ++ spec.decls_named (view_all_known known.now) (at (map (option_map view_function) functions.now)) (map view_part parts.now)) }
{
    for place in 0..parts.len() {
        put_decl(alloc, known, functions, &parts[place], out)?;
    }
    Ok(())
}

// ---- bodies

#[tactic(auto, using(crate::proofs::Gathering::entry_laws))]
fn put_body_of<'a, 'b>(
    alloc: Global,
    known: &[Known],
    stmt: &typed_unit::Stmt<'_>,
    function: Option<&'a Function<'b>>,
    out: &mut Vec<Entry<'a>>,
) -> Result<(), NoMemory>
    ensures { OnOk result (view_entries out.new.items ≡ view_entries out.old.items ++ spec.body_of (view_all_known known.now) (view_stmt stmt.now) (option_map lent_function function.entry)) }
{
    match function {
        Some(function) => {
            let mut notes = Vec::new(alloc);
            put_notes(stmt, &mut notes)?;
            let mut claimed = Vec::new(alloc);
            put_all_claimed(function.body.as_slice(), &mut claimed)?;
            put_all_noted(alloc, known, notes.as_slice(), claimed.as_slice(), out)
        }
        None => Ok(()),
    }
}

fn put_body<'a, 'b>(
    alloc: Global,
    known: &[Known],
    functions: &'a [Option<Function<'b>>],
    body: &Body<'_>,
    out: &mut Vec<Entry<'a>>,
) -> Result<(), NoMemory>
    ensures { OnOk result (view_entries out.new.items ≡ view_entries out.old.items ++ spec.body_of (view_all_known known.now) (view_body body.now).stmt (at (map (option_map view_function) functions.now) (view_body body.now).function)) }
{
    let function = function_at(functions, body.function);
    put_body_of(alloc, known, &body.stmt, function, out)
}

fn put_bodies<'a, 'b>(
    alloc: Global,
    known: &[Known],
    functions: &'a [Option<Function<'b>>],
    bodies: &[Body<'_>],
    out: &mut Vec<Entry<'a>>,
) -> Result<(), NoMemory>
    ensures { OnOk result (view_entries out.new.items ≡ view_entries out.old.items ++ spec.bodies_named (view_all_known known.now) (at (map (option_map view_function) functions.now)) (map view_body bodies.now)) }
{
    for place in 0..bodies.len() {
        put_body(alloc, known, functions, &bodies[place], out)?;
    }
    Ok(())
}

// ---- files

/// The table of a typed file and the program that it is: each declaration's contract beside that of the function, and each body's loops and assertions beside
/// those that run.
#[tactic(auto, using(crate::proofs::Gathering::table_is))]
pub fn table_of<'a, 'b>(
    alloc: Global,
    typed: &Typed<'_>,
    program: &'a Program<'b>,
) -> Result<Table<'a>, NoMemory>
    ensures { IfOk result (λ table. view_table table ≡ spec.table_of (view_typed typed.now) (view_program program.now).functions) }
{
    let known = known_in(alloc, typed.parts.as_slice())?;
    let mut entries = Vec::new(alloc);
    let functions = program.functions.as_slice();
    put_decls(
        alloc,
        known.as_slice(),
        functions,
        typed.parts.as_slice(),
        &mut entries,
    )?;
    put_bodies(
        alloc,
        known.as_slice(),
        functions,
        typed.bodies.as_slice(),
        &mut entries,
    )?;
    Ok(Table { entries })
}
