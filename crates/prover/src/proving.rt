// The verdict on a goal.
ghost use Rattle.std.specs.Prelude.{◌≡◌, true, [], ◌∷◌, OnOk, IfOk, All};
ghost use Rattle.qed_terms.specs.Setting.{is_regular};
ghost use Rattle.qed_terms.specs.Store.{KeepsOlder};
ghost use Rattle.qed_terms.specs.Tree.{not_of, true_tree};
ghost use Rattle.qed_terms.specs.View.{formula_tree, view_setting};
ghost use Rattle.qed_terms.specs.Order.{same};
ghost use Rattle.stored_normals.specs.Kept.{IsExact};
ghost use Rattle.branches.specs.Expansion.{Runs, from_formula, all_closed};
ghost use Rattle.instance_rows.specs.Round.{IsRound};
ghost use Rattle.expansion_ends.specs.Goals.{proving};
ghost use Rattle.prover.specs.Late.{IsClosedLate};
ghost use Rattle.prover.specs.Prover.{IsProverVerdict};

use crate::late::new_late;
use crate::rules::new_prover;
use added_instances::is_true;
use branch_changes::ChangeRules;
use branches::expand;
use qed_terms::{Formula, Head, Node, Setting, TermStore, TreeStore, Verdict};
use std::alloc::Global;
use stored_normals::{fits_over, lift_node};
use wp_base::NoMemory;

/// The `not` of a formula that the store holds. Of a term there is none, which no caller asks for: the answer is then want of memory.
fn negation_in<S: TermStore>(
    alloc: Global,
    store: &mut S,
    formula: S::Id,
) -> Result<S::Id, NoMemory>
    requires { S.held store.old formula }
    ensures older { OnOk result (KeepsOlder (S.held store.old) (S.held store.new) (S.tree store.old) (S.tree store.new)) }
    ensures held { IfOk result (λ id. S.held store.new id) }
    ensures stands { IfOk result (λ id. S.tree store.new id ≡ not_of (S.tree store.old formula)) }
{
    let mut kids = Vec::with_capacity(alloc, 1)?;
    kids.push(formula)?;
    if !fits_over(&*store, &Head::Not, kids.as_slice()) {
        return Err(NoMemory);
    }
    let id = store.make(Head::Not, kids.as_slice())?;
    Ok(id)
}

/// Whether an expansion of a formula closes that looks late whether a branch is closed, in a regular setting.
fn closes_late<S: TermStore>(
    alloc: Global,
    store: &mut S,
    start: S::Id,
    fuel: u32,
    branches: u32,
    world: &Setting,
) -> Result<bool, NoMemory>
    requires exact { IsExact S.Id.eq }
    requires regular { is_regular (view_setting world.now) ≡ true }
    requires held { S.held store.old start }
    ensures older { OnOk result (KeepsOlder (S.held store.old) (S.held store.new) (S.tree store.old) (S.tree store.new)) }
    ensures runs { IfOk result (λ closes. closes ≡ true → Runs (proving IsClosedLate IsRound (view_setting world.now)) branches (from_formula fuel (S.tree store.old start)) 0 [] all_closed) }
{
    let mut late = new_late(alloc, &*store);
    let verdict = expand(alloc, store, &mut late, start, fuel, branches, world)?;
    match verdict {
        Verdict::Proved => Ok(true),
        Verdict::Open | Verdict::Branches | Verdict::Size => Ok(false),
    }
}

/// The verdict on a formula that a store holds, in a regular setting: proved at once where its normal form is `true`, and else as the
/// expansion of its negation ends. Before that an expansion is tried that looks less often whether a branch is closed: it is as sound,
/// and most goals close by it.
#[tactic(auto, using(stored_normals::proofs::Keeping::later_kept))]
pub fn prove_in<S: TermStore>(
    alloc: Global,
    store: &mut S,
    goal: S::Id,
    fuel: u32,
    branches: u32,
    world: &Setting,
) -> Result<Verdict, NoMemory>
    requires exact { IsExact S.Id.eq }
    requires regular { is_regular (view_setting world.now) ≡ true }
    requires held { S.held store.old goal }
    ensures older { OnOk result (KeepsOlder (S.held store.old) (S.held store.new) (S.tree store.old) (S.tree store.new)) }
    ensures verdict { IfOk result (λ verdict. IsProverVerdict (view_setting world.now) fuel branches (S.tree store.old goal) verdict) }
{
    let mut prover = new_prover(alloc, &*store);
    let normal = prover.stored.normal(alloc, store, goal, world)?;
    if is_true(&*store, normal) {
        return Ok(Verdict::Proved);
    }
    let negation = negation_in(alloc, store, goal)?;
    let start = prover.stored.normal(alloc, store, negation, world)?;
    let closes = closes_late(alloc, store, start, fuel, branches, world)?;
    if closes {
        return Ok(Verdict::Proved);
    }
    let verdict = expand(alloc, store, &mut prover, start, fuel, branches, world)?;
    Ok(verdict)
}

/// The verdict on a formula, in a regular setting. A formula that isn't well formed, which no goal of a program is, is held by no store:
/// the answer is then want of memory.
pub fn prove(
    alloc: Global,
    goal: &Formula,
    fuel: u32,
    branches: u32,
    world: &Setting,
) -> Result<Verdict, NoMemory>
    requires { is_regular (view_setting world.now) ≡ true }
    ensures { IfOk result (λ verdict. IsProverVerdict (view_setting world.now) fuel branches (formula_tree goal.now) verdict) }
{
    let mut store = TreeStore::new(alloc);
    let id = lift_node(alloc, &mut store, Node::Formula(goal))?;
    let verdict = prove_in(alloc, &mut store, id, fuel, branches, world)?;
    Ok(verdict)
}
