// What follows for a goal and its text.
ghost use Rattle.std.specs.Prelude.{◌≡◌, List, true, IfOk};
ghost use Rattle.qed_terms.specs.Tree.{Tree, goal_of};
ghost use Rattle.qed_terms.specs.View.{goal_tree};
ghost use Rattle.qed_terms.specs.WellFormed.{is_goal};
ghost use Rattle.goal_text.specs.Held.{goal_held};
ghost use Rattle.goal_text.specs.Text.{goal_text};
ghost use Rattle.goal_text.specs.Views.{known_of, check_of};

use crate::answer::GoalText;
use crate::read::read_goal;
use crate::write::write_goal;
use qed_terms::Goal;
use std::alloc::Global;
use wp_base::NoMemory;

/// A text is that of one goal.
pub fn text_determines_goal()
    ensures { (known other : List Tree) → (check last : Tree) → is_goal known check ≡ true → goal_held known check ≡ true → is_goal other last ≡ true → goal_held other last ≡ true
        → goal_text known check ≡ goal_text other last → goal_of known check ≡ goal_of other last }
{}

/// A goal by way of its text: what is written is read back as it was.
pub fn through_text(alloc: Global, goal: &Goal) -> Result<Goal, NoMemory>
    requires { is_goal (known_of goal.now) (check_of goal.now) ≡ true }
    ensures { IfOk result (λ copy. goal_tree copy ≡ goal_tree goal.now) }
{
    let text = write_goal(alloc, goal)?;
    match read_goal(alloc, text.bytes()) {
        Ok(copy) => Ok(copy),
        Err(GoalText::NoMemory) => Err(NoMemory),
        Err(GoalText::NotAGoal) => unreachable!(),
    }
}
