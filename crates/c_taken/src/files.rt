// Functions and files (C11 6.9).
ghost use Rattle.std.specs.Prelude.{◌≡◌, IfOk, OnOk, map, option_map};
ghost use Rattle.std.specs.Option.{option_copied};
ghost use Rattle.c_syntax.specs.Stmt as s;
ghost use Rattle.c_syntax.specs.View.{view_decl, view_function, view_program, view_stmt};
ghost use Rattle.c_taken.specs.Walks as spec;

use crate::clauses::names_in_logic;
use crate::exprs::{names_in_var, names_in_vars};
use crate::marks::Marks;
use c_syntax::{Decl, Function, Program, Stmt, StmtNode};
use name_table::Table;
use std::alloc::Global;
use wp_base::{List, NoMemory};

// The statements of a block, if a statement is one.
#[tactic(auto, using(c_syntax::proofs::Equations::stmt_laws, crate::proofs::Walking::no_block_if))]
fn block_of(stmt: &Stmt) -> Option<&List<Stmt>>
    ensures { option_map (λ body. s.stmts_of (map view_stmt body.now)) result ≡ spec.block_of (view_stmt stmt.now) }
{
    match &stmt.node {
        StmtNode::Block(body) => Some(body),
        StmtNode::Empty => None,
        StmtNode::Expr(_) => None,
        StmtNode::Locals(_) => None,
        StmtNode::If(_, _, _) => None,
        StmtNode::While(_, _, _) => None,
        StmtNode::Do(_, _, _) => None,
        StmtNode::For(_, _, _, _, _) => None,
        StmtNode::Switch(_, _) => None,
        StmtNode::Case(_) => None,
        StmtNode::Default => None,
        StmtNode::Break => None,
        StmtNode::Continue => None,
        StmtNode::Return(_) => None,
        StmtNode::Assert(_) => None,
    }
}

impl Marks {
    fn walk_body(&mut self, alloc: Global, body: &Option<Stmt>) -> Result<(), NoMemory>
        ensures { OnOk result (self.new ≡ spec.body_walked (option_map view_stmt body.now) self.old) }
    {
        match body {
            None => Ok(()),
            Some(body) => match block_of(body) {
                Some(stmts) => self.walk_all(alloc, stmts),
                None => self.walk(alloc, body),
            },
        }
    }

    #[tactic(auto, unfolding(crate::specs::Walks::function_walked))]
    fn walk_function(&mut self, alloc: Global, function: &Function) -> Result<(), NoMemory>
        ensures { OnOk result (self.new ≡ spec.function_walked (view_function function.now) self.old) }
    {
        self.mark_type(alloc, &function.result)?;
        self.enter(alloc)?;
        self.declare_vars(alloc, &function.params)?;
        self.mark_contract(alloc, &function.contract)?;
        self.walk_body(alloc, &function.body)?;
        self.leave();
        Ok(())
    }

    fn walk_decl(&mut self, alloc: Global, decl: &Decl) -> Result<(), NoMemory>
        ensures { OnOk result (self.new ≡ spec.decl_walked (view_decl decl.now) self.old) }
    {
        match decl {
            Decl::Struct(item) => self.mark_all(
                alloc,
                names_in_vars(alloc, &item.fields)?.as_slice(),
            ),
            Decl::Enum(item) => self.mark_all(alloc, names_in_vars(alloc, &item.items)?.as_slice()),
            Decl::Typedef(item) => self.mark_all(alloc, names_in_var(alloc, item)?.as_slice()),
            Decl::Globals(items) => self.mark_all(alloc, names_in_vars(alloc, items)?.as_slice()),
            Decl::Function(function) => self.walk_function(alloc, function),
            Decl::Logic(item) => self.mark_all(alloc, names_in_logic(alloc, item)?.as_slice()),
        }
    }

    fn walk_decls(&mut self, alloc: Global, decls: &List<Decl>) -> Result<(), NoMemory>
        ensures { OnOk result (self.new ≡ spec.decls_walked (map view_decl decls.now) self.old) }
    {
        for decl in decls.as_slice() {
            self.walk_decl(alloc, decl)?;
        }
        Ok(())
    }
}

/// Whether the address of each local of a function is taken, by the numbers of the locals: parameters first, then each declaration of a name that
/// is new in its block. A prototype has none.
#[tactic(auto, unfolding(crate::specs::Walks::taken_locals))]
pub fn taken_locals(alloc: Global, function: &Function) -> Result<List<bool>, NoMemory>
    ensures { IfOk result (λ flags. flags ≡ spec.taken_locals (view_function function.now)) }
{
    if function.body.is_none() {
        return Ok(List::new(alloc));
    }
    let mut marks = Marks::new(alloc);
    marks.walk_function(alloc, function)?;
    let Marks {
        scopes,
        taken,
        outer,
    } = marks;
    drop(scopes);
    drop(outer);
    Ok(taken)
}

/// The names of the file scope whose address is taken anywhere in the file, each with `true`.
#[tactic(auto, unfolding(crate::specs::Walks::taken_names))]
pub fn taken_names(alloc: Global, program: &Program) -> Result<Table<bool>, NoMemory>
    ensures { IfOk result (λ names. names ≡ spec.taken_names (view_program program.now)) }
{
    let mut marks = Marks::new(alloc);
    marks.walk_decls(alloc, &program.decls)?;
    let Marks {
        scopes,
        taken,
        outer,
    } = marks;
    drop(scopes);
    drop(taken);
    Ok(outer)
}
