// Formulas and their texts.
ghost use Rattle.std.specs.Prelude.{◌≡◌, ℕ, List, ◌++◌, ◌∷◌, [], codes, IfOk, Err};
ghost use Rattle.qed_terms.specs.View.{formula_tree};
ghost use Rattle.goal_text.specs.Text.{tree_text};
ghost use Rattle.wpgoal_cli.specs.Lines.{IsNoFormula, IsTextOf};

use goal_text::{GoalText, read_goal, write_goal};
use qed_terms::{Formula, Goal};
use std::alloc::Global;
use wp_base::{List, NoMemory, Str};

fn wrapped(alloc: Global, line: &[u8]) -> Result<Vec<u8>, NoMemory>
    ensures { IfOk result (λ text. text.items ≡ codes "(imp (and) " ++ (line.now ++ 41 ∷ [])) }
{
    let mut text = Vec::new(alloc);
    text.extend_from_slice(b"(imp (and) ")?;
    text.extend_from_slice(line)?;
    text.push(b')')?;
    Ok(text)
}

/// The formula that has this text.
pub fn read_formula(alloc: Global, line: &[u8]) -> Result<Formula, GoalText>
    ensures read { IfOk result (λ formula. IsTextOf line.now (formula_tree formula)) }
    ensures none { result ≡ Err GoalText.NotAGoal → IsNoFormula line.now }
{
    let text = wrapped(alloc, line)?;
    match read_goal(alloc, text.as_slice()) {
        Ok(goal) => Ok(goal.check),
        Err(end) => Err(end),
    }
}

/// The text of a formula.
#[tactic(auto, using(crate::proofs::Texts::check_text))]
pub fn formula_text(alloc: Global, formula: Formula) -> Result<Str, NoMemory>
    ensures { IfOk result (λ text. text ≡ tree_text (formula_tree formula)) }
{
    let goal = Goal {
        known: List::new(alloc),
        check: formula,
    };
    let text = write_goal(alloc, &goal)?;
    check_of(alloc, text.bytes())
}

// What stands between the front and the last bracket.
fn check_of(alloc: Global, text: &[u8]) -> Result<Str, NoMemory>
    ensures { IfOk result (λ check. (inner : List ℕ) → text.now ≡ codes "(imp (and) " ++ (inner ++ 41 ∷ []) → check ≡ inner) }
{
    let end = text.len().saturating_sub(1);
    let check = text.get(11..end).unwrap_or(&[]);
    Ok(Str::from_bytes(alloc, check)?)
}
