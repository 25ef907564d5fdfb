// Goals read from their texts into a store, and branches of what it holds.
ghost use Rattle.std.specs.Prelude.{◌≡◌, IfOk};

use goal_text::read_goal;
use qed_terms::{IdBranch, Node, TermStore};
use std::alloc::Global;
use stored_normals::lift_node;
use wp_base::{List, NoMemory};

/// The kid at a place. A goal's text has it; of another one the answer is want of memory.
pub fn kid_of<S: TermStore>(store: &S, id: S::Id, at: usize) -> Result<S::Id, NoMemory>
    requires { S.held store.now id }
    ensures { IfOk result (S.held store.now) }
{
    match store.kids(id).get(at) {
        Some(kid) => Ok(*kid),
        None => Err(NoMemory),
    }
}

/// What is known in a goal, and what is checked.
pub fn stored_goal<S: TermStore>(
    alloc: Global,
    store: &mut S,
    text: &[u8],
) -> Result<(S::Id, S::Id), NoMemory>
    ensures known { IfOk result (λ ids. S.held store.new ids.0) }
    ensures check { IfOk result (λ ids. S.held store.new ids.1) }
{
    let Ok(goal) = read_goal(alloc, text) else {
        return Err(NoMemory)
    };
    let formula = goal.formula(alloc)?;
    let id = lift_node(alloc, store, Node::Formula(&formula))?;
    let known = kid_of(&*store, id, 0)?;
    let check = kid_of(&*store, id, 1)?;
    Ok((known, check))
}

/// The branch of these.
pub fn branch_of<I: Copy + Drop>(
    alloc: Global,
    literals: &[I],
    waiting: &[I],
) -> Result<IdBranch<I>, NoMemory>
    ensures literals { IfOk result (λ branch. branch.literals ≡ literals.now) }
    ensures waiting { IfOk result (λ branch. branch.waiting ≡ waiting.now) }
{
    let literals = Vec::from_slice(alloc, literals)?;
    let waiting = Vec::from_slice(alloc, waiting)?;
    Ok(IdBranch {
        literals: List::from_vec(literals),
        waiting: List::from_vec(waiting),
    })
}
