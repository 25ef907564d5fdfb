// Files.
ghost use Rattle.std.specs.Prelude.{◌≡◌, IfOk, OnOk, map, option_map};
ghost use Rattle.c_syntax.specs.View.{view_decl, view_program, view_stmt};
ghost use Rattle.from_lines.specs.Froms as spec;

use crate::contracts::put_contract;
use crate::stmts::put_stmt;
use c_syntax::{Decl, Program, Stmt};
use std::alloc::Global;
use wp_base::{Line, List, NoMemory};

fn put_body(body: &Option<Stmt>, lines: &mut Vec<Line>) -> Result<(), NoMemory>
    ensures { OnOk result (lines.new.items ≡ spec.in_body (option_map view_stmt body.now) lines.old.items) }
{
    match body {
        None => Ok(()),
        Some(body) => put_stmt(body, lines),
    }
}

fn put_decl(decl: &Decl, lines: &mut Vec<Line>) -> Result<(), NoMemory>
    ensures { OnOk result (lines.new.items ≡ spec.in_decl (view_decl decl.now) lines.old.items) }
{
    match decl {
        Decl::Function(function) => {
            put_contract(&function.contract, lines)?;
            put_body(&function.body, lines)
        }
        Decl::Struct(_) | Decl::Enum(_) | Decl::Typedef(_) | Decl::Globals(_) | Decl::Logic(_) =>
            Ok(()),
    }
}

/// The lines of the parts with `\from` of a text, in its order.
#[tactic(auto, using(crate::proofs::Turns::decl_next, crate::proofs::Turns::decls_end))]
pub fn from_lines(alloc: Global, program: &Program) -> Result<List<Line>, NoMemory>
    ensures { IfOk result (λ lines. lines ≡ spec.from_lines (view_program program.now)) }
{
    let mut lines = Vec::new(alloc);
    for decl in program.decls.as_slice() {
        put_decl(decl, &mut lines)?;
    }
    Ok(List::from_vec(lines))
}
