// Items: what is asked before a value is used, and what is known of it.
ghost use Rattle.std.specs.Prelude.{◌∷◌, []};
ghost use Rattle.check_lists.specs.View.{view_undefined};
ghost use Rattle.qed_terms.specs.Tree.{Tree};
ghost use Rattle.c_runs.specs.Checks.{here};
ghost use Rattle.value_terms.specs.Words as spec;
ghost use Rattle.term_drafts.specs.Drafts.{FormulaIs};
ghost use Rattle.memory_values.specs.Drafts.{Pushes};

use check_lists::Undefined;
use qed_terms::Formula;
use term_drafts::FormulaDraft;
use wp_base::{Line, NoMemory};

/// What the evaluation of an expression meets.
#[derive(Drop)]
pub enum Item {
    /// A check: what may be undefined, its line, and the formula that it isn't.
    Asked(Undefined, Line, Formula),
    /// What is known behind the checks before it.
    Known(Formula),
}

/// A check is asked.
#[tactic(auto, using(crate::proofs::Adding::push_laws, term_drafts::proofs::Drafted::formula_is))]
pub(crate) fn push_asked(
    kind: Undefined,
    line: Line,
    formula: FormulaDraft,
    out: &mut Vec<Item>,
) -> Result<(), NoMemory>
    ensures { (f : Tree) → FormulaIs formula f → Pushes result out.old.items out.new.items (spec.asked (here (view_undefined kind) line) f ∷ []) }
{
    let formula = formula?;
    out.push(Item::Asked(kind, line, formula))?;
    Ok(())
}

/// A formula is known.
#[tactic(auto, using(crate::proofs::Adding::push_laws, term_drafts::proofs::Drafted::formula_is))]
pub(crate) fn push_known(formula: FormulaDraft, out: &mut Vec<Item>) -> Result<(), NoMemory>
    ensures { (f : Tree) → FormulaIs formula f → Pushes result out.old.items out.new.items (spec.known f ∷ []) }
{
    let formula = formula?;
    out.push(Item::Known(formula))?;
    Ok(())
}
