// Contracts and annotations of loops (ACSL 2.3, 2.4.2).
ghost use Rattle.std.specs.Prelude.{◌≡◌, ◌++◌, OnOk, map};
ghost use Rattle.c_syntax.specs.View.{view_behavior, view_contract, view_loop};
ghost use Rattle.from_lines.specs.Froms as spec;

use c_syntax::{AssignsClause, Behavior, Contract, LoopAnnot};
use wp_base::{Line, NoMemory};

fn put_from(clause: &AssignsClause, lines: &mut Vec<Line>) -> Result<(), NoMemory>
    ensures { OnOk result (lines.new.items ≡ lines.old.items ++ clause.now.from) }
{
    lines.extend_from_slice(clause.from.as_slice())?;
    Ok(())
}

#[tactic(auto, using(crate::proofs::Turns::behavior_next, crate::proofs::Turns::behaviors_end))]
fn put_behaviors(behaviors: &[Behavior], lines: &mut Vec<Line>) -> Result<(), NoMemory>
    ensures { OnOk result (lines.new.items ≡ spec.in_behaviors (map view_behavior behaviors.now) lines.old.items) }
{
    for behavior in behaviors {
        put_from(&behavior.assigns, lines)?;
    }
    Ok(())
}

/// Those of a contract behind the others.
pub(crate) fn put_contract(contract: &Contract, lines: &mut Vec<Line>) -> Result<(), NoMemory>
    ensures { OnOk result (lines.new.items ≡ spec.in_contract (view_contract contract.now) lines.old.items) }
{
    put_from(&contract.assigns, lines)?;
    put_behaviors(contract.behaviors.as_slice(), lines)
}

/// Those of a loop's annotation.
pub(crate) fn put_loop(annot: &LoopAnnot, lines: &mut Vec<Line>) -> Result<(), NoMemory>
    ensures { OnOk result (lines.new.items ≡ spec.in_loop (view_loop annot.now) lines.old.items) }
{
    put_from(&annot.assigns, lines)
}
