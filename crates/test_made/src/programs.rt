// A body as a program of one function, made core, with its checks.
use crate::bodies::{Left, stmts_at};
use crate::shown::put_steps;
use crate::values::Values;
use c_kinds::Machdep;
use checks_added::add_checks;
use core_trees::FunctionVariable;
use normal_programs::normalise;
use program_trees::{Behavior, Contract, Facts, Function, Program, Stmt};
use std::alloc::Global;
use test_lines::Page;
use wp_base::{CellKind, Kind, Layout, List, NoMemory};

fn variable(alloc: Global, has_value: bool) -> FunctionVariable {
    FunctionVariable {
        layout: Layout {
            count: 1,
            cells: List::new(alloc),
            writable: true,
        },
        is_plain: true,
        has_value,
    }
}

fn variables(alloc: Global) -> Result<List<FunctionVariable>, NoMemory> {
    let mut made = List::new(alloc);
    made.push(variable(alloc, true))?;
    made.push(variable(alloc, true))?;
    made.push(variable(alloc, false))?;
    Ok(made)
}

fn no_contract(alloc: Global) -> Contract {
    Contract {
        plain: Behavior {
            assumes: List::new(alloc),
            requires_: List::new(alloc),
            ensures_: List::new(alloc),
            assigns: None,
        },
        decreases: None,
        behaviors: List::new(alloc),
        together: List::new(alloc),
    }
}

fn no_facts(alloc: Global) -> Facts {
    Facts {
        model: Machdep::X86_64,
        globals: List::new(alloc),
        structs: List::new(alloc),
        definitions: List::new(alloc),
        clusters: List::new(alloc),
    }
}

fn program_of<'a>(alloc: Global, body: List<Stmt<'a>>) -> Result<Program<'a>, NoMemory> {
    let variables = variables(alloc)?;
    let mut functions = List::new(alloc);
    functions.push(Some(Function {
        params: 2,
        variables,
        result: Some(CellKind::Of(Kind::Int)),
        contract: no_contract(alloc),
        body,
        end: 1,
    }))?;
    Ok(Program {
        facts: no_facts(alloc),
        functions,
    })
}

// The core program with its checks.
fn put_made(alloc: Global, program: &Program<'_>, page: &mut Page) -> Result<(), NoMemory> {
    let core = normalise(alloc, program)?;
    let checked = add_checks(alloc, &core)?;
    for function in checked.functions.as_slice() {
        if let Some(function) = function {
            put_steps(page, function.body.as_slice());
        }
    }
    Ok(())
}

/// What becomes of a body.
pub(crate) fn put_program(
    alloc: Global,
    values: &Values,
    text: &[u8],
    page: &mut Page,
) -> Result<(), NoMemory> {
    let mut left = Left::new(text);
    let body = stmts_at(alloc, 30, values, &mut left)?;
    let program = program_of(alloc, body)?;
    put_made(alloc, &program, page)
}
