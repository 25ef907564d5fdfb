// Copies of goals, branches and settings.

use crate::terms::one_int;
use qed_terms::{Branch, Formula, Goal, LogicFn, Setting, Term};
use std::alloc::Global;
use test_lines::Page;
use wp_base::{List, NoMemory, Str};

// A goal of which nothing is known is an implication all the same.
fn is_implication(alloc: Global, goal: &Goal) -> Result<bool, NoMemory> {
    let formula = goal.formula(alloc)?;
    Ok(matches!(formula, Formula::Imp(_, _)) && goal.check.is_true())
}

fn is_copy_implication(alloc: Global, goal: &Goal) -> Result<bool, NoMemory> {
    let copy = goal.copy(alloc)?;
    is_implication(alloc, &copy)
}

fn is_goal_copied(alloc: Global) -> Result<bool, NoMemory> {
    let goal = Goal {
        known: List::new(alloc),
        check: Formula::True,
    };
    is_copy_implication(alloc, &goal)
}

fn has_one_literal(alloc: Global, branch: &Branch) -> Result<bool, NoMemory> {
    let copy = branch.copy(alloc)?;
    Ok(copy.literals.len() == 1 && copy.waiting.len() == 0)
}

fn is_branch_copied(alloc: Global) -> Result<bool, NoMemory> {
    let mut literals = List::new(alloc);
    literals.push(Formula::True)?;
    let branch = Branch {
        literals,
        waiting: List::new(alloc),
    };
    has_one_literal(alloc, &branch)
}

fn setting_of(alloc: Global) -> Result<Setting, NoMemory> {
    let mut logic = List::new(alloc);
    logic.push(LogicFn {
        name: Str::from_bytes(alloc, b"f")?,
        params: one_int(alloc)?,
        number: 0,
        cut: 0,
        base: Term::number(1),
        step: Term::number(2),
    })?;
    Ok(Setting {
        long_bits: 64,
        logic,
    })
}

fn is_setting_copied(alloc: Global) -> Result<bool, NoMemory> {
    let setting = setting_of(alloc)?;
    let copy = setting.copy(alloc)?;
    Ok(copy.long_bits == 64 && copy.logic.len() == 1)
}

fn tell(page: &mut Page, what: &str, holds: bool) {
    page.put(what);
    page.put(if holds { " copied\n" } else { " not copied\n" });
}

pub fn tell_copies(alloc: Global, page: &mut Page) -> Result<(), NoMemory> {
    tell(page, "goal", is_goal_copied(alloc)?);
    tell(page, "branch", is_branch_copied(alloc)?);
    tell(page, "setting", is_setting_copied(alloc)?);
    Ok(())
}
