// One turn of an expansion: each function is one step or, where that doesn't apply, the next function.
ghost use Rattle.std.specs.Prelude.{◌≡◌, suc, true, OnOk, IfOk};
ghost use Rattle.qed_terms.specs.Setting.{is_regular};
ghost use Rattle.qed_terms.specs.Store.{KeepsOlder};
ghost use Rattle.qed_terms.specs.View.{view_setting};
ghost use Rattle.branches.specs.Expansion.{FromRound, FromSplit, FromChange, Turns, rules_of, stand};
ghost use Rattle.branches.specs.Ids.{branch_of, task_of, tasks_of, turn_of, IsLeafTurn, BranchHeld, TasksHeld};

use crate::disjuncts::push_disjuncts;
use crate::kinds::{Kind, first_of};
use crate::rules::BranchRules;
use crate::sizes::is_large;
use crate::tasks::{IdTask, with_added};
use qed_terms::{Setting, TermStore, Verdict};
use std::alloc::Global;
use wp_base::NoMemory;

/// How many leaves there may be before a disjunct, and whether open leaves are passed over.
#[derive(Clone, Copy, Debug)]
pub struct Course {
    pub budget: u32,
    pub passes: bool,
}

/// What a turn leads to: the end, or so many leaves, with the branches on the stack, where the branch at hand was closed or changed, or
/// was passed over.
#[derive(Drop)]
pub enum Turned {
    Ends(Verdict),
    Goes(u64),
    Passes(u64),
}

// One leaf more. So many leaves that their count ends are never met: it would take centuries.
fn one_more(leaves: u64) -> Result<u64, NoMemory>
    ensures { IfOk result (λ more. more ≡ suc leaves) }
{
    match leaves.checked_add(1) {
        Some(more) => Ok(more),
        None => Err(NoMemory),
    }
}

// At an open leaf.
fn leaf_turn(passes: bool, leaves: u64) -> Result<Turned, NoMemory>
    ensures { IfOk result (IsLeafTurn passes leaves) }
{
    if passes {
        Ok(Turned::Passes(one_more(leaves)?))
    } else {
        Ok(Turned::Ends(Verdict::Open))
    }
}

// A round, or an open leaf.
fn round_turn<S: TermStore, R: BranchRules<S>>(
    alloc: Global,
    store: &mut S,
    rules: &mut R,
    task: &IdTask<S::Id>,
    leaves: u64,
    course: Course,
    todo: &mut Vec<IdTask<S::Id>>,
    world: &Setting,
) -> Result<Turned, NoMemory>
    requires ready { R.ready rules.old store.old }
    requires regular { is_regular (view_setting world.now) ≡ true }
    requires held { BranchHeld (S.held store.old) task.now.at }
    requires todo { TasksHeld (S.held store.old) todo.old.items }
    ensures ready { OnOk result (R.ready rules.new store.new) }
    ensures older { OnOk result (KeepsOlder (S.held store.old) (S.held store.new) (S.tree store.old) (S.tree store.new)) }
    ensures held { OnOk result (TasksHeld (S.held store.new) todo.new.items) }
    ensures turn { IfOk result (λ made. FromRound (rules_of course.passes R.closed (R.change (view_setting world.now)) (R.round (view_setting world.now))) (stand (task_of (S.tree store.old) task.now) (tasks_of (S.tree store.old) todo.old.items) leaves) (turn_of (branch_of (S.tree store.old) task.now.at) made (tasks_of (S.tree store.new) todo.new.items))) }
{
    if task.fuel == 0 {
        let turned = leaf_turn(course.passes, leaves)?;
        return Ok(turned);
    }
    let added = rules.round(alloc, store, &task.at, world)?;
    if added.len() == 0 {
        let turned = leaf_turn(course.passes, leaves)?;
        return Ok(turned);
    }
    let at = with_added(alloc, &task.at, added.as_slice())?;
    todo.push(IdTask {
        fuel: task.fuel - 1,
        asks: false,
        at,
    })?;
    Ok(Turned::Goes(leaves))
}

// The first `or` is split, or there is none.
fn split_turn<S: TermStore, R: BranchRules<S>>(
    alloc: Global,
    store: &mut S,
    rules: &mut R,
    task: &IdTask<S::Id>,
    leaves: u64,
    course: Course,
    todo: &mut Vec<IdTask<S::Id>>,
    world: &Setting,
) -> Result<Turned, NoMemory>
    requires ready { R.ready rules.old store.old }
    requires regular { is_regular (view_setting world.now) ≡ true }
    requires held { BranchHeld (S.held store.old) task.now.at }
    requires todo { TasksHeld (S.held store.old) todo.old.items }
    ensures ready { OnOk result (R.ready rules.new store.new) }
    ensures older { OnOk result (KeepsOlder (S.held store.old) (S.held store.new) (S.tree store.old) (S.tree store.new)) }
    ensures held { OnOk result (TasksHeld (S.held store.new) todo.new.items) }
    ensures turn { IfOk result (λ made. FromSplit (rules_of course.passes R.closed (R.change (view_setting world.now)) (R.round (view_setting world.now))) (stand (task_of (S.tree store.old) task.now) (tasks_of (S.tree store.old) todo.old.items) leaves) (turn_of (branch_of (S.tree store.old) task.now.at) made (tasks_of (S.tree store.new) todo.new.items))) }
{
    match first_of(&*store, task.at.waiting.as_slice(), Kind::Or) {
        Some(at) => {
            push_disjuncts(alloc, &*store, task.fuel, &task.at, at, todo)?;
            Ok(Turned::Goes(leaves))
        }
        None => {
            let turned = round_turn(alloc, store, rules, task, leaves, course, todo, world)?;
            Ok(turned)
        }
    }
}

// The first change, or there is none.
fn change_turn<S: TermStore, R: BranchRules<S>>(
    alloc: Global,
    store: &mut S,
    rules: &mut R,
    task: &IdTask<S::Id>,
    leaves: u64,
    course: Course,
    todo: &mut Vec<IdTask<S::Id>>,
    world: &Setting,
) -> Result<Turned, NoMemory>
    requires ready { R.ready rules.old store.old }
    requires regular { is_regular (view_setting world.now) ≡ true }
    requires held { BranchHeld (S.held store.old) task.now.at }
    requires todo { TasksHeld (S.held store.old) todo.old.items }
    ensures ready { OnOk result (R.ready rules.new store.new) }
    ensures older { OnOk result (KeepsOlder (S.held store.old) (S.held store.new) (S.tree store.old) (S.tree store.new)) }
    ensures held { OnOk result (TasksHeld (S.held store.new) todo.new.items) }
    ensures turn { IfOk result (λ made. FromChange (rules_of course.passes R.closed (R.change (view_setting world.now)) (R.round (view_setting world.now))) (stand (task_of (S.tree store.old) task.now) (tasks_of (S.tree store.old) todo.old.items) leaves) (turn_of (branch_of (S.tree store.old) task.now.at) made (tasks_of (S.tree store.new) todo.new.items))) }
{
    let changed = rules.change(alloc, store, &task.at, world)?;
    match changed {
        Some(at) => {
            todo.push(IdTask {
                fuel: task.fuel,
                asks: false,
                at,
            })?;
            Ok(Turned::Goes(leaves))
        }
        None => {
            let turned = split_turn(alloc, store, rules, task, leaves, course, todo, world)?;
            Ok(turned)
        }
    }
}

/// The first step that applies to the branch at hand.
pub fn turn<S: TermStore, R: BranchRules<S>>(
    alloc: Global,
    store: &mut S,
    rules: &mut R,
    task: &IdTask<S::Id>,
    leaves: u64,
    course: Course,
    todo: &mut Vec<IdTask<S::Id>>,
    world: &Setting,
) -> Result<Turned, NoMemory>
    requires ready { R.ready rules.old store.old }
    requires regular { is_regular (view_setting world.now) ≡ true }
    requires held { BranchHeld (S.held store.old) task.now.at }
    requires todo { TasksHeld (S.held store.old) todo.old.items }
    ensures ready { OnOk result (R.ready rules.new store.new) }
    ensures older { OnOk result (KeepsOlder (S.held store.old) (S.held store.new) (S.tree store.old) (S.tree store.new)) }
    ensures held { OnOk result (TasksHeld (S.held store.new) todo.new.items) }
    ensures turn { IfOk result (λ made. Turns (rules_of course.passes R.closed (R.change (view_setting world.now)) (R.round (view_setting world.now))) course.budget (stand (task_of (S.tree store.old) task.now) (tasks_of (S.tree store.old) todo.old.items) leaves) (turn_of (branch_of (S.tree store.old) task.now.at) made (tasks_of (S.tree store.new) todo.new.items))) }
{
    if task.asks && u64::from(course.budget) <= leaves {
        return Ok(Turned::Ends(Verdict::Branches));
    }
    if is_large(&*store, &task.at) {
        return Ok(Turned::Ends(Verdict::Size));
    }
    if rules.is_closed(alloc, &*store, &task.at)? {
        return Ok(Turned::Goes(one_more(leaves)?));
    }
    let turned = change_turn(alloc, store, rules, task, leaves, course, todo, world)?;
    Ok(turned)
}
