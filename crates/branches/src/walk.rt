// The expansion of a formula: turns over a stack of branches.
ghost use Rattle.std.specs.Prelude.{◌≡◌, false, true, List, [], ◌∷◌, map, All, OnOk, IfOk, IfErr};
ghost use Rattle.qed_terms.specs.Setting.{is_regular};
ghost use Rattle.qed_terms.specs.Store.{KeepsOlder};
ghost use Rattle.qed_terms.specs.View.{view_setting};
ghost use Rattle.branches.specs.Expansion.{Runs, rules_of, from_formula, all_closed};
ghost use Rattle.branches.specs.Branch.{Branch};
ghost use Rattle.branches.specs.Ids.{branch_of, end_of, SplitFails, BranchHeld};

use crate::rules::BranchRules;
use crate::tasks::IdTask;
use crate::turns::{Course, Turned, turn};
use qed_terms::{IdBranch, Setting, TermStore, Verdict};
use std::alloc::Global;
use wp_base::{List, NoMemory};

/// How an expansion ended, and the open branches that it passed over, in order.
#[derive(Drop)]
pub struct Expanded<I> {
    pub verdict: Verdict,
    pub passed: List<IdBranch<I>>,
}

/// Why a formula has no split: there are more leaves than are allowed, a branch is too large, or memory ran out.
#[derive(Clone, Copy, Debug, PartialEq, Eq)]
pub enum SplitEnd {
    TooMany,
    TooLarge,
    NoMemory,
}

// No literals, and this formula waiting.
fn first_task<I: Copy + Drop>(alloc: Global, start: I, fuel: u32) -> Result<IdTask<I>, NoMemory>
    ensures { IfOk result (λ task. (task.fuel ≡ fuel) × (task.asks ≡ false) × (task.at.literals ≡ []) × (task.at.waiting ≡ start ∷ [])) }
{
    let mut waiting = List::new(alloc);
    waiting.push(start)?;
    let literals = List::new(alloc);
    Ok(IdTask {
        fuel,
        asks: false,
        at: IdBranch { literals, waiting },
    })
}

/// The expansion that begins with this formula waiting. So many turns that their count ends are never met: it would take centuries.
pub fn run<S: TermStore, R: BranchRules<S>>(
    alloc: Global,
    store: &mut S,
    rules: &mut R,
    start: S::Id,
    fuel: u32,
    course: Course,
    world: &Setting,
) -> Result<Expanded<S::Id>, NoMemory>
    requires ready { R.ready rules.old store.old }
    requires regular { is_regular (view_setting world.now) ≡ true }
    requires held { S.held store.old start }
    ensures ready { OnOk result (R.ready rules.new store.new) }
    ensures older { OnOk result (KeepsOlder (S.held store.old) (S.held store.new) (S.tree store.old) (S.tree store.new)) }
    ensures held { IfOk result (λ made. All (BranchHeld (S.held store.new)) made.passed) }
    ensures runs { IfOk result (λ made. Runs (rules_of course.passes R.closed (R.change (view_setting world.now)) (R.round (view_setting world.now))) course.budget (from_formula fuel (S.tree store.old start)) 0 (map (branch_of (S.tree store.new)) made.passed) (end_of made.verdict)) }
{
    let mut todo = Vec::new(alloc);
    todo.push(first_task(alloc, start, fuel)?)?;
    let mut passed = List::new(alloc);
    let mut leaves: u64 = 0;
    for _ in 0..u64::MAX {
        match todo.pop() {
            None => {
                return Ok(Expanded {
                    verdict: Verdict::Proved,
                    passed,
                });
            }
            Some(task) => {
                match turn(alloc, store, rules, &task, leaves, course, &mut todo, world)? {
                    Turned::Ends(verdict) => return Ok(Expanded { verdict, passed }),
                    Turned::Goes(more) => leaves = more,
                    Turned::Passes(more) => {
                        leaves = more;
                        passed.push(task.at)?;
                    }
                }
            }
        }
    }
    Err(NoMemory)
}

/// How the expansion of a formula ends, where no open branch is passed over.
pub fn expand<S: TermStore, R: BranchRules<S>>(
    alloc: Global,
    store: &mut S,
    rules: &mut R,
    start: S::Id,
    fuel: u32,
    budget: u32,
    world: &Setting,
) -> Result<Verdict, NoMemory>
    requires ready { R.ready rules.old store.old }
    requires regular { is_regular (view_setting world.now) ≡ true }
    requires held { S.held store.old start }
    ensures ready { OnOk result (R.ready rules.new store.new) }
    ensures older { OnOk result (KeepsOlder (S.held store.old) (S.held store.new) (S.tree store.old) (S.tree store.new)) }
    ensures runs { IfOk result (λ verdict. Runs (rules_of false R.closed (R.change (view_setting world.now)) (R.round (view_setting world.now))) budget (from_formula fuel (S.tree store.old start)) 0 [] (end_of verdict)) }
{
    let course = Course {
        budget,
        passes: false,
    };
    let expanded = run(alloc, store, rules, start, fuel, course, world)?;
    Ok(expanded.verdict)
}

/// The open branches that one formula leaves before any round, in order; none where there are more leaves than the limit, or a branch
/// is too large.
pub fn split_by<S: TermStore, R: BranchRules<S>>(
    alloc: Global,
    store: &mut S,
    rules: &mut R,
    start: S::Id,
    limit: u32,
    world: &Setting,
) -> Result<List<IdBranch<S::Id>>, SplitEnd>
    requires ready { R.ready rules.old store.old }
    requires regular { is_regular (view_setting world.now) ≡ true }
    requires held { S.held store.old start }
    ensures ready { OnOk result (R.ready rules.new store.new) }
    ensures older { OnOk result (KeepsOlder (S.held store.old) (S.held store.new) (S.tree store.old) (S.tree store.new)) }
    ensures held { IfOk result (All (BranchHeld (S.held store.new))) }
    ensures open { IfOk result (λ branches. Runs (rules_of true R.closed (R.change (view_setting world.now)) (R.round (view_setting world.now))) limit (from_formula 0 (S.tree store.old start)) 0 (map (branch_of (S.tree store.new)) branches) all_closed) }
    ensures ends { IfErr result (SplitFails (λ e. (bs : List Branch) × Runs (rules_of true R.closed (R.change (view_setting world.now)) (R.round (view_setting world.now))) limit (from_formula 0 (S.tree store.old start)) 0 bs e)) }
{
    let course = Course {
        budget: limit,
        passes: true,
    };
    match run(alloc, store, rules, start, 0, course, world) {
        Ok(expanded) => match expanded.verdict {
            Verdict::Proved => Ok(expanded.passed),
            Verdict::Branches => Err(SplitEnd::TooMany),
            Verdict::Size => Err(SplitEnd::TooLarge),
            Verdict::Open => unreachable!(),
        },
        Err(_) => Err(SplitEnd::NoMemory),
    }
}
