// What the changes of a branch make of it.
ghost use Rattle.std.specs.Prelude.{◌≡◌, true, All, IfOk};
ghost use Rattle.qed_terms.specs.Setting.{is_regular};
ghost use Rattle.qed_terms.specs.View.{view_setting};
ghost use Rattle.branches.specs.Ids.{BranchHeld};

use crate::stored::{branch_of, stored_goal};
use branch_changes::ChangeRules;
use branch_steps::change_branch;
use goal_text::write_goal;
use prover::new_prover;
use qed_ids::{Made, lower_node};
use qed_simplify::plain_setting;
use qed_terms::{Formula, Goal, IdBranch, Setting, TermStore, TreeStore};
use std::alloc::Global;
use test_lines::Page;
use wp_base::{List, NoMemory, Str};

/// How many changes a branch may have here.
const MOST_CHANGES: u32 = 50;

// The branch after all changes, and how many more there could have been.
fn changed<S: TermStore, R: ChangeRules<S>>(
    alloc: Global,
    store: &mut S,
    rules: &mut R,
    branch: IdBranch<S::Id>,
    world: &Setting,
    room: u32,
) -> Result<(IdBranch<S::Id>, u32), NoMemory>
    requires ready { R.ready rules.old store.old }
    requires regular { is_regular (view_setting world.now) ≡ true }
    requires held { BranchHeld (S.held store.old) branch }
    ensures { IfOk result (λ made. BranchHeld (S.held store.new) made.0) }
{
    match change_branch(alloc, store, rules, &branch, world)? {
        None => Ok((branch, room)),
        Some(next) => match room {
            0 => Err(NoMemory),
            _ => changed(alloc, store, rules, next, world, room - 1),
        },
    }
}

fn formulas_of<S: TermStore>(
    alloc: Global,
    store: &S,
    ids: &[S::Id],
) -> Result<List<Formula>, NoMemory>
    requires { All (S.held store.now) ids.now }
{
    let mut formulas = List::new(alloc);
    for id in ids {
        match lower_node(alloc, store, *id)? {
            Made::Formula(formula) => formulas.push(formula)?,
            Made::Term(_) => return Err(NoMemory),
        }
    }
    Ok(formulas)
}

// The text of a branch as a goal: its literals are known, and what waits is checked.
fn branch_text<S: TermStore>(
    alloc: Global,
    store: &S,
    branch: &IdBranch<S::Id>,
) -> Result<Str, NoMemory>
    requires { BranchHeld (S.held store.now) branch.now }
{
    let known = formulas_of(alloc, store, branch.literals.as_slice())?;
    let waiting = formulas_of(alloc, store, branch.waiting.as_slice())?;
    let check = Formula::And(waiting);
    write_goal(alloc, &Goal { known, check })
}

/// Tells what the changes make of the branch whose literals are known in a goal, and whose other formulas are the parts of what it checks.
pub fn put_changed(alloc: Global, page: &mut Page, text: &str) -> Result<(), NoMemory> {
    let mut store = TreeStore::new(alloc);
    let (known, check) = stored_goal(alloc, &mut store, text.as_bytes())?;
    let branch = branch_of(alloc, store.kids(known), store.kids(check))?;
    let mut rules = new_prover(alloc, &store);
    let world = plain_setting(alloc, 64);
    let (end, room) = changed(alloc, &mut store, &mut rules, branch, &world, MOST_CHANGES)?;
    let changed_text = branch_text(alloc, &store, &end)?;
    page.put(text);
    page.put("  => ");
    page.put_number(MOST_CHANGES.saturating_sub(room));
    page.put(" ");
    page.put_bytes(changed_text.bytes());
    page.put("\n");
    Ok(())
}
