// The rows that look at nodes alone, one after the other.
ghost use Rattle.std.specs.Prelude.{◌≡◌, ◌⊎◌, ◌++◌, All, map, OnOk};
ghost use Rattle.qed_terms.specs.Store.{KeepsOlder};
ghost use Rattle.instance_rounds.specs.Steps.{step_formulas, rows_in_order};

use node_instances::{NodeRow, at_each};
use pair_instances::{PairRow, at_pairs};
use qed_terms::TermStore;
use std::alloc::Global;
use wp_base::NoMemory;

/// A row, and the nodes that it looks at.
#[derive(Clone, Copy)]
pub enum Step {
    Literals(NodeRow),
    Nodes(NodeRow),
    LiteralsAndNodes(PairRow),
    NodePairs(PairRow),
}

/// The rows in their order.
pub const STEPS: [Step; 12] = [
    Step::Literals(NodeRow::OrderOfUnequal),
    Step::Nodes(NodeRow::LoadOfStore),
    Step::LiteralsAndNodes(PairRow::FrameOfLoad),
    Step::LiteralsAndNodes(PairRow::RangeOfLoad),
    Step::Nodes(NodeRow::ReadOfWrite),
    Step::Nodes(NodeRow::PlaceOfRead),
    Step::Nodes(NodeRow::AnswerOfAlloc),
    Step::NodePairs(PairRow::AnswerOfLayout),
    Step::Nodes(NodeRow::CasesOfWrap),
    Step::Nodes(NodeRow::CasesOfQuotient),
    Step::Nodes(NodeRow::BoundsOfOperator),
    Step::Nodes(NodeRow::ArmOfIte),
];

// Puts what one row gives behind other formulas.
fn put_step<S: TermStore>(
    alloc: Global,
    store: &mut S,
    long_bits: u8,
    step: Step,
    literals: &[S::Id],
    nodes: &[S::Id],
    out: &mut Vec<S::Id>,
) -> Result<(), NoMemory>
    requires width { (long_bits ≡ 32) ⊎ (long_bits ≡ 64) }
    requires literals_held { All (S.held store.old) literals.now }
    requires nodes_held { All (S.held store.old) nodes.now }
    requires out_held { All (S.held store.old) out.old.items }
    ensures older { OnOk result (KeepsOlder (S.held store.old) (S.held store.new) (S.tree store.old) (S.tree store.new)) }
    ensures held { OnOk result (All (S.held store.new) out.new.items) }
    ensures stand { OnOk result (map (S.tree store.new) out.new.items ≡ map (S.tree store.old) out.old.items ++ step_formulas long_bits step (map (S.tree store.old) literals.now) (map (S.tree store.old) nodes.now)) }
{
    match step {
        Step::Literals(row) => at_each(alloc, store, long_bits, row, literals, out),
        Step::Nodes(row) => at_each(alloc, store, long_bits, row, nodes, out),
        Step::LiteralsAndNodes(row) => {
            at_pairs(alloc, store, long_bits, row, literals, nodes, out)
        }
        Step::NodePairs(row) => at_pairs(alloc, store, long_bits, row, nodes, nodes, out),
    }
}

/// Puts what the rows at nodes give behind other formulas, row by row.
pub fn put_rows<S: TermStore>(
    alloc: Global,
    store: &mut S,
    long_bits: u8,
    literals: &[S::Id],
    nodes: &[S::Id],
    out: &mut Vec<S::Id>,
) -> Result<(), NoMemory>
    requires width { (long_bits ≡ 32) ⊎ (long_bits ≡ 64) }
    requires literals_held { All (S.held store.old) literals.now }
    requires nodes_held { All (S.held store.old) nodes.now }
    requires out_held { All (S.held store.old) out.old.items }
    ensures older { OnOk result (KeepsOlder (S.held store.old) (S.held store.new) (S.tree store.old) (S.tree store.new)) }
    ensures held { OnOk result (All (S.held store.new) out.new.items) }
    ensures stand { OnOk result (map (S.tree store.new) out.new.items ≡ map (S.tree store.old) out.old.items ++ rows_in_order long_bits (map (S.tree store.old) literals.now) (map (S.tree store.old) nodes.now)) }
{
    for step in &STEPS {
        put_step(alloc, store, long_bits, *step, literals, nodes, out)?;
    }
    Ok(())
}
