// Who decides goals.
ghost use Rattle.std.specs.Prelude.{◌≡◌, true, map, IfOk};
ghost use Rattle.plain_reports.specs.Reports as spec;
ghost use Rattle.qed_terms.specs.Setting.{is_regular};
ghost use Rattle.qed_terms.specs.Tree.{goal_of};
ghost use Rattle.qed_terms.specs.View.{formula_tree, view_setting};
ghost use Rattle.wp_words.specs.CommandView.{view_wanted};

use goal_prover::prove_goal;
use goal_report::Judge;
use logic_settings::Order;
use qed_terms::{Formula, Verdict};
use std::alloc::Global;
use wp_base::NoMemory;
use wp_words::Wanted;

/// The prover, in the setting that a file's logic functions make, as far as goals are to be decided.
#[derive(Clone, Copy)]
pub(crate) struct Prover<'a> {
    pub(crate) order: &'a Order,
    pub(crate) wanted: Wanted,
    ghost regular: { is_regular (view_setting order.now.setting) ≡ true },
}

fn verdict_of(
    alloc: Global,
    prover: &Prover<'_>,
    known: &[Formula],
    claim: &Formula,
) -> Result<Verdict, NoMemory>
    ensures { IfOk result (λ verdict. spec.says (view_setting prover.now.order.now.setting) (view_wanted prover.now.wanted) (goal_of (map formula_tree known.now) (formula_tree claim.now)) verdict) }
{
    let verdict = prove_goal(
        alloc,
        known,
        claim,
        prover.wanted.fuel,
        prover.wanted.branches,
        &prover.order.setting,
    )?;
    Ok(verdict)
}

impl<'a> Judge for Prover<'a> {
    ghost says = { λ j goal verdict. spec.says (view_setting j.order.now.setting) (view_wanted j.wanted) goal verdict };

    fn judge(
        &self,
        alloc: Global,
        known: &[Formula],
        claim: &Formula,
    ) -> Result<Verdict, NoMemory> {
        verdict_of(alloc, self, known, claim)
    }
}
