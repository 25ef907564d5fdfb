// The rows at an equation that is no fact, and at a choice.
ghost use Rattle.std.specs.Prelude.{ℕ, IfOk};
ghost use Rattle.qed_terms.specs.Tree as tree;
ghost use Rattle.qed_terms.specs.Tree.{Tree};
ghost use Rattle.term_sketches.specs.Sketches.{Draws};
ghost use Rattle.instance_rows.specs.Rows as rows;
ghost use Rattle.drawn_instances.specs.Drawn.{AreDrawn, row_at};
ghost use Rattle.node_instances.specs.Formulas.{either_arm, either_less};

use drawn_instances::{
    Instances, Seen, instances_of, look, no_instances, one_kid, three_ids, three_kids, two_ids,
    two_kids,
};
use qed_terms::{Head, TermStore};
use std::alloc::Global;
use term_sketches::{Draft, and_of, equal, less, not_of, or_of, over, slot};
use wp_base::NoMemory;

fn one_is_smaller(alloc: Global, left: usize, right: usize) -> Draft
    ensures { (f : ℕ → Tree) → Draws f result (either_less (f left) (f right)) }
{
    or_of(
        alloc,
        [
            less(alloc, slot(left), slot(right)),
            less(alloc, slot(right), slot(left)),
        ],
    )
}

/// At a literal that two integers aren't equal: one is the smaller.
#[tactic(auto, using(crate::proofs::ConditionLaws::unequal_laws, drawn_instances::proofs::DrawnLaws::instance_laws))]
pub fn order_of_unequal<S: TermStore>(
    alloc: Global,
    store: &S,
    id: S::Id,
) -> Result<Instances<S::Id>, NoMemory>
    requires { S.held store.now id }
    ensures { IfOk result (λ made. AreDrawn (S.held store.now) (S.tree store.now) made.ids.items made.formulas (row_at rows.order_of_unequal (S.tree store.now id))) }
{
    let Seen::Not = look(store, id) else {
        return Ok(no_instances(alloc));
    };
    let Some(equation) = one_kid(store, id) else {
        return Ok(no_instances(alloc));
    };
    let Seen::Equal = look(store, equation) else {
        return Ok(no_instances(alloc));
    };
    let Some((left, right)) = two_kids(store, equation) else {
        return Ok(no_instances(alloc));
    };
    let ids = two_ids(alloc, left, right)?;
    let made = instances_of(alloc, ids, [one_is_smaller(alloc, 0, 1)])?;
    Ok(made)
}

fn chosen(alloc: Global, condition: usize, left: usize, right: usize) -> Draft
    ensures { (f : ℕ → Tree) → Draws f result (tree.ite (f condition) (f left) (f right)) }
{
    over(alloc, Head::Ite, [slot(condition), slot(left), slot(right)])
}

fn one_of_both(alloc: Global, condition: usize, left: usize, right: usize) -> Draft
    ensures { (f : ℕ → Tree) → Draws f result (either_arm (f condition) (f left) (f right)) }
{
    or_of(
        alloc,
        [
            and_of(
                alloc,
                [
                    slot(condition),
                    equal(alloc, chosen(alloc, condition, left, right), slot(left)),
                ],
            ),
            and_of(
                alloc,
                [
                    not_of(alloc, slot(condition)),
                    equal(alloc, chosen(alloc, condition, left, right), slot(right)),
                ],
            ),
        ],
    )
}

/// At a choice: it is one of its arms.
#[tactic(auto, using(crate::proofs::ConditionLaws::arm_laws, drawn_instances::proofs::DrawnLaws::instance_laws))]
pub fn arm_of_ite<S: TermStore>(
    alloc: Global,
    store: &S,
    id: S::Id,
) -> Result<Instances<S::Id>, NoMemory>
    requires { S.held store.now id }
    ensures { IfOk result (λ made. AreDrawn (S.held store.now) (S.tree store.now) made.ids.items made.formulas (row_at rows.arm_of_ite (S.tree store.now id))) }
{
    let Seen::Ite = look(store, id) else {
        return Ok(no_instances(alloc));
    };
    let Some((condition, left, right)) = three_kids(store, id) else {
        return Ok(no_instances(alloc));
    };
    let ids = three_ids(alloc, condition, left, right)?;
    let made = instances_of(alloc, ids, [one_of_both(alloc, 0, 1, 2)])?;
    Ok(made)
}
