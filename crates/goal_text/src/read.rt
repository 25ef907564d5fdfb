// Goals, read from their text.
ghost use Rattle.std.specs.Prelude.{◌≡◌, List, true, length, map, IfOk, MatchResult};
ghost use Rattle.qed_terms.specs.Tree.{Tree, goal_of};
ghost use Rattle.qed_terms.specs.View.{formula_tree, goal_tree};
ghost use Rattle.qed_terms.specs.WellFormed.{is_goal};
ghost use Rattle.goal_text.specs.Held.{goal_held};
ghost use Rattle.goal_text.specs.Text.{goal_text};
ghost use Rattle.goal_text.specs.Reader as spec;
ghost use Rattle.goal_text.specs.Views.{Gives, GivesOne, GivesRest, check_of, known_of, parts_of};

use crate::answer::GoalText;
use crate::kids::Kids;
use crate::layout::{expect, opened};
use crate::leaves::Wanted;
use crate::terms::{formula, kids_any};
use goal_words::is_end;
use qed_terms::{Formula, Goal};
use std::alloc::Global;
use wp_base::List;

// What is known, up to the check.
#[tactic(auto, unfolding(crate::specs::Reader::known))]
fn known(alloc: Global, room: usize, bytes: &[u8]) -> Result<(List<Formula>, &[u8]), GoalText>
    ensures { Gives (map formula_tree) result (spec.known (spec.tree room) bytes.now) }
{
    let rest = opened(b"imp", bytes)?;
    let rest = expect(b' ', rest)?;
    let rest = opened(b"and", rest)?;
    let mut kids = Kids::new(alloc);
    let rest = kids_any(alloc, room, Wanted::Formula, &mut kids, rest)?;
    let rest = expect(b')', rest)?;
    Ok((kids.formulas, rest))
}

// The bracket that closes a goal, with which the text ends.
fn closes(bytes: &[u8]) -> Result<&[u8], GoalText>
    ensures { GivesRest result (spec.closes bytes.now) }
{
    let rest = expect(b')', bytes)?;
    if is_end(rest) {
        Ok(rest)
    } else {
        Err(GoalText::NotAGoal)
    }
}

// The goal that the whole text is.
fn whole_goal(alloc: Global, text: &[u8]) -> Result<Goal, GoalText>
    ensures { GivesOne parts_of result (spec.goal (spec.tree (length text.now)) text.now) }
{
    let (known, rest) = known(alloc, text.len(), text)?;
    let rest = expect(b' ', rest)?;
    let (check, rest) = formula(alloc, text.len(), rest)?;
    closes(rest)?;
    Ok(Goal { known, check })
}

/// Reads a goal from its text, of which each goal has one. Brackets may nest as deep as the text has them, and the
/// reader calls itself for each.
pub fn read_goal(alloc: Global, text: &[u8]) -> Result<Goal, GoalText>
    // What is read is well formed.
    ensures well_formed { IfOk result (λ g. is_goal (known_of g) (check_of g) ≡ true) }
    // The text is the one text of what is read.
    ensures text { IfOk result (λ g. goal_text (known_of g) (check_of g) ≡ text.now) }
    // A goal that has this text is read, and as that goal, unless memory runs out; so the text is none of a goal exactly
    // where no goal has it.
    ensures only { (known : List Tree) → (check : Tree) → is_goal known check ≡ true → goal_held known check ≡ true → goal_text known check ≡ text.now
        → MatchResult result (λ g. goal_tree g ≡ goal_of known check) (λ end. end ≡ GoalText.NoMemory) }
{
    whole_goal(alloc, text)
}
