// What is marked so far, and the scopes around a place (C11 6.2.1).
ghost use Rattle.std.specs.Prelude.{◌≡◌, OnOk, map, option_map, slice_set, true};
ghost use Rattle.c_syntax.specs.View.{view_contract, view_ctype, view_expr, view_loop, view_pred, view_var};
ghost use Rattle.c_taken.specs.Addressed as names;
ghost use Rattle.c_taken.specs.Marking as spec;
ghost use Rattle.c_taken.specs.Pieces.{pointed};
ghost use Rattle.c_taken.specs.Walks.{var_walked, vars_walked};

use crate::clauses::{names_in_contract, names_in_loop};
use crate::exprs::{names_in_expr, names_in_option, names_in_type};
use crate::preds::names_in_pred;
use c_syntax::{CType, Contract, Expr, LoopAnnot, Pred, VarDecl};
use name_table::{Scopes, Table};
use std::alloc::Global;
use std::mem;
use wp_base::{List, NoMemory, Str};

// The names of the scopes around a place of a function with their numbers, the flags of all locals so far, and the names of the file scope
// that are marked. Where memory is lacking, this may only be dropped.
#[derive(Drop)]
pub(crate) struct Marks {
    pub scopes: Scopes<usize>,
    pub taken: List<bool>,
    pub outer: Table<bool>,
}

fn with_flag(flags: List<bool>, number: usize) -> List<bool>
    ensures { result ≡ slice_set flags number true }
{
    let mut flags = flags.into_vec();
    if number < flags.len() {
        flags[number] = true;
    }
    List::from_vec(flags)
}

impl Marks {
    /// Nothing is marked or declared.
    pub(crate) fn new(alloc: Global) -> Marks
        ensures { result ≡ spec.no_marks }
    {
        Marks {
            scopes: Scopes::new(alloc),
            taken: List::new(alloc),
            outer: Table::new(alloc),
        }
    }

    /// A scope begins.
    pub(crate) fn enter(&mut self, alloc: Global) -> Result<(), NoMemory>
        ensures { OnOk result (self.new ≡ spec.inside self.old) }
    {
        self.scopes.enter(alloc)
    }

    /// The innermost scope ends.
    pub(crate) fn leave(&mut self)
        ensures { self.new ≡ spec.left self.old }
    {
        self.scopes.leave();
    }

    fn declare(&mut self, alloc: Global, name: &Str) -> Result<(), NoMemory>
        ensures { OnOk result (self.new ≡ spec.declared_here name.now self.old) }
    {
        let is_new = self.scopes.declare(alloc, name, self.taken.len())?;
        if is_new {
            self.taken.push(false)?;
        }
        Ok(())
    }

    #[tactic(auto, unfolding(crate::specs::Marking::mark))]
    fn mark(&mut self, alloc: Global, name: &Str) -> Result<(), NoMemory>
        ensures { OnOk result (self.new ≡ spec.mark name.now self.old) }
    {
        match self.scopes.find(name) {
            Some(number) => {
                let taken = mem::replace(&mut self.taken, List::new(alloc));
                self.taken = with_flag(taken, number);
                Ok(())
            }
            None => {
                let _is_new = self.outer.declare(alloc, name, true)?;
                Ok(())
            }
        }
    }

    /// Marks all these names.
    pub(crate) fn mark_all(&mut self, alloc: Global, names: &[&Str]) -> Result<(), NoMemory>
        ensures { OnOk result (self.new ≡ spec.marked (pointed names.now) self.old) }
    {
        for name in names {
            self.mark(alloc, *name)?;
        }
        Ok(())
    }

    /// Marks what an expression has behind `&`.
    pub(crate) fn mark_expr(&mut self, alloc: Global, expr: &Expr) -> Result<(), NoMemory>
        ensures { OnOk result (self.new ≡ spec.marked (names.addressed (view_expr expr.now)) self.old) }
    {
        self.mark_all(alloc, names_in_expr(alloc, expr)?.as_slice())
    }

    pub(crate) fn mark_option(&mut self, alloc: Global, expr: &Option<Expr>) -> Result<(), NoMemory>
        ensures { OnOk result (self.new ≡ spec.marked (names.option_addressed (option_map view_expr expr.now)) self.old) }
    {
        self.mark_all(alloc, names_in_option(alloc, expr)?.as_slice())
    }

    pub(crate) fn mark_type(&mut self, alloc: Global, ty: &CType) -> Result<(), NoMemory>
        ensures { OnOk result (self.new ≡ spec.marked (names.type_addressed (view_ctype ty.now)) self.old) }
    {
        self.mark_all(alloc, names_in_type(alloc, ty)?.as_slice())
    }

    pub(crate) fn mark_pred(&mut self, alloc: Global, pred: &Pred) -> Result<(), NoMemory>
        ensures { OnOk result (self.new ≡ spec.marked (names.pred_addressed (view_pred pred.now)) self.old) }
    {
        self.mark_all(alloc, names_in_pred(alloc, pred)?.as_slice())
    }

    pub(crate) fn mark_contract(
        &mut self,
        alloc: Global,
        contract: &Contract,
    ) -> Result<(), NoMemory>
        ensures { OnOk result (self.new ≡ spec.marked (names.contract_addressed (view_contract contract.now)) self.old) }
    {
        self.mark_all(alloc, names_in_contract(alloc, contract)?.as_slice())
    }

    pub(crate) fn mark_loop(&mut self, alloc: Global, annot: &LoopAnnot) -> Result<(), NoMemory>
        ensures { OnOk result (self.new ≡ spec.marked (names.loop_addressed (view_loop annot.now)) self.old) }
    {
        self.mark_all(alloc, names_in_loop(alloc, annot)?.as_slice())
    }

    #[tactic(auto, unfolding(crate::specs::Walks::var_walked))]
    fn declare_var(&mut self, alloc: Global, var: &VarDecl) -> Result<(), NoMemory>
        ensures { OnOk result (self.new ≡ var_walked (view_var var.now) self.old) }
    {
        self.mark_type(alloc, &var.ty)?;
        self.declare(alloc, &var.name)?;
        self.mark_option(alloc, &var.init)
    }

    /// Declares locals, one after another, and marks what they have behind `&`.
    pub(crate) fn declare_vars(
        &mut self,
        alloc: Global,
        vars: &List<VarDecl>,
    ) -> Result<(), NoMemory>
        ensures { OnOk result (self.new ≡ vars_walked (map view_var vars.now) self.old) }
    {
        for var in vars.as_slice() {
            self.declare_var(alloc, var)?;
        }
        Ok(())
    }
}
