// What closes literals beside a clash: links of them that are a negative chain or a short sum.
ghost use Rattle.branch_links.specs.BranchLinks.{LinksRefute};
ghost use Rattle.branch_links.proofs.Soundness.{refuted_is_false};

use closed_branches::LiteralTest;
use congruence::TermClasses;
use linear_prover::negative_chain;
use std::alloc::Global;
use tree_places::TreeTable;
use wp_base::NoMemory;

/// Refutes literals of which some links can't all hold.
#[derive(Clone, Copy)]
pub struct LinkTest;

impl LiteralTest for LinkTest {
    ghost refuted = { LinksRefute };

    #[tactic(auto, using(crate::proofs::Told::some_refute))]
    fn refutes(
        &self,
        alloc: Global,
        table: &TreeTable,
        closed: &TermClasses,
        literals: &[usize],
    ) -> Result<bool, NoMemory> {
        let found = negative_chain(alloc, table, closed, literals)?;
        Ok(found.is_some())
    }

    ghost sound = { λ w env ls. refuted_is_false w env ls };
}
