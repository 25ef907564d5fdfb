// Statements (C11 6.8), gone through from the front. The recursion is as deep as statements stand in one another.
ghost use Rattle.std.specs.Prelude.{◌≡◌, OnOk, map, option_map};
ghost use Rattle.c_syntax.specs.Stmt as s;
ghost use Rattle.c_syntax.specs.View.{view_expr, view_loop, view_stmt};
ghost use Rattle.c_taken.specs.Marking as marking;
ghost use Rattle.c_taken.specs.Walks as spec;

use crate::marks::Marks;
use c_syntax::{Expr, LoopAnnot, Stmt, StmtNode};
use std::alloc::Global;
use wp_base::{Boxed, List, NoMemory};

impl Marks {
    // The head of a `while` loop.
    fn mark_head(&mut self, alloc: Global, annot: &LoopAnnot, test: &Expr) -> Result<(), NoMemory>
        ensures { OnOk result (self.new ≡ spec.head_marked (view_loop annot.now) (view_expr test.now) self.old) }
    {
        self.mark_loop(alloc, annot)?;
        self.mark_expr(alloc, test)
    }

    // What stands in the brackets of a `for` behind its declaration, and its annotation.
    fn mark_tests(
        &mut self,
        alloc: Global,
        annot: &LoopAnnot,
        test: &Option<Expr>,
        next: &Option<Expr>,
    ) -> Result<(), NoMemory>
        ensures { OnOk result (self.new ≡ spec.tests_marked (view_loop annot.now) (option_map view_expr test.now) (option_map view_expr next.now) self.old) }
    {
        self.mark_loop(alloc, annot)?;
        self.mark_option(alloc, test)?;
        self.mark_option(alloc, next)
    }

    /// Goes through a statement.
    #[cycle(walk)]
    #[tactic(auto, using(c_syntax::proofs::Equations::stmt_laws, crate::proofs::Walking::stmt_laws))]
    pub(crate) fn walk(&mut self, alloc: Global, stmt: &Stmt) -> Result<(), NoMemory>
        ensures { OnOk result (self.new ≡ spec.walked (view_stmt stmt.now) self.old) }
    {
        match &stmt.node {
            StmtNode::Empty => Ok(()),
            StmtNode::Expr(expr) => self.mark_expr(alloc, expr),
            StmtNode::Block(body) => self.walk_block(alloc, body),
            StmtNode::Locals(vars) => self.declare_vars(alloc, vars),
            StmtNode::If(test, body, other) => {
                self.mark_expr(alloc, test)?;
                self.walk(alloc, body.get())?;
                self.walk_else(alloc, other)
            }
            StmtNode::While(annot, test, body) => {
                self.mark_head(alloc, annot, test)?;
                self.walk(alloc, body.get())
            }
            StmtNode::Do(annot, body, test) => {
                self.mark_loop(alloc, annot)?;
                self.walk(alloc, body.get())?;
                self.mark_expr(alloc, test)
            }
            StmtNode::For(annot, first, test, next, body) => {
                self.enter(alloc)?;
                self.walk(alloc, first.get())?;
                self.mark_tests(alloc, annot, test, next)?;
                self.walk(alloc, body.get())?;
                self.leave();
                Ok(())
            }
            StmtNode::Switch(value, body) => {
                self.mark_expr(alloc, value)?;
                self.walk_block(alloc, body)
            }
            StmtNode::Case(value) => self.mark_expr(alloc, value),
            StmtNode::Default => Ok(()),
            StmtNode::Break => Ok(()),
            StmtNode::Continue => Ok(()),
            StmtNode::Return(value) => self.mark_option(alloc, value),
            StmtNode::Assert(pred) => self.mark_pred(alloc, pred),
        }
    }

    #[cycle(walk)]
    fn walk_else(&mut self, alloc: Global, other: &Option<Boxed<Stmt>>) -> Result<(), NoMemory>
        ensures { OnOk result (self.new ≡ spec.else_walked (option_map view_stmt other.now) self.old) }
    {
        match other {
            None => Ok(()),
            Some(other) => self.walk(alloc, other.get()),
        }
    }

    // The statements of a block, in a scope of their own.
    #[cycle(walk)]
    fn walk_block(&mut self, alloc: Global, body: &List<Stmt>) -> Result<(), NoMemory>
        ensures { OnOk result (self.new ≡ marking.left (spec.all_walked (s.stmts_of (map view_stmt body.now)) (marking.inside self.old))) }
    {
        self.enter(alloc)?;
        self.walk_all(alloc, body)?;
        self.leave();
        Ok(())
    }

    /// Goes through these statements, in the scope that is open.
    #[cycle(walk)]
    pub(crate) fn walk_all(&mut self, alloc: Global, body: &List<Stmt>) -> Result<(), NoMemory>
        ensures { OnOk result (self.new ≡ spec.all_walked (s.stmts_of (map view_stmt body.now)) self.old) }
    {
        for stmt in body.as_slice() {
            self.walk(alloc, stmt)?;
        }
        Ok(())
    }
}
