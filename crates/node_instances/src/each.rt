// Rows at each of several nodes.
ghost use Rattle.std.specs.Prelude.{◌≡◌, ◌⊎◌, ◌++◌, map, All, OnOk, IfOk};
ghost use Rattle.qed_terms.specs.Store.{KeepsOlder};
ghost use Rattle.instance_rows.specs.Occurrences.{at_each};
ghost use Rattle.drawn_instances.specs.Drawn.{AreDrawn, row_at};
ghost use Rattle.node_instances.specs.NodeRows.{node_row};

use crate::conditions::{arm_of_ite, order_of_unequal};
use crate::conversions::cases_of_wrap;
use crate::memories::load_of_store;
use crate::operators::bounds_of_operator;
use crate::quotients::cases_of_quotient;
use crate::tables::{place_of_read, read_of_write};
use block_instances::answer_of_alloc;
use drawn_instances::Instances;
use qed_terms::TermStore;
use std::alloc::Global;
use term_sketches::make_all;
use wp_base::NoMemory;

/// A row at one node.
#[derive(Clone, Copy)]
pub enum NodeRow {
    OrderOfUnequal,
    LoadOfStore,
    ReadOfWrite,
    PlaceOfRead,
    AnswerOfAlloc,
    CasesOfWrap,
    CasesOfQuotient,
    BoundsOfOperator,
    ArmOfIte,
}

/// What a row gives at a node. `long` has 32 or 64 bits.
pub fn instances_at<S: TermStore>(
    alloc: Global,
    store: &S,
    long_bits: u8,
    row: NodeRow,
    id: S::Id,
) -> Result<Instances<S::Id>, NoMemory>
    requires held { S.held store.now id }
    requires width { (long_bits ≡ 32) ⊎ (long_bits ≡ 64) }
    ensures { IfOk result (λ made. AreDrawn (S.held store.now) (S.tree store.now) made.ids.items made.formulas (row_at (node_row long_bits row) (S.tree store.now id))) }
{
    match row {
        NodeRow::OrderOfUnequal => order_of_unequal(alloc, store, id),
        NodeRow::LoadOfStore => load_of_store(alloc, store, id),
        NodeRow::ReadOfWrite => read_of_write(alloc, store, id),
        NodeRow::PlaceOfRead => place_of_read(alloc, store, id),
        NodeRow::AnswerOfAlloc => answer_of_alloc(alloc, store, id),
        NodeRow::CasesOfWrap => cases_of_wrap(alloc, store, long_bits, id),
        NodeRow::CasesOfQuotient => cases_of_quotient(alloc, store, id),
        NodeRow::BoundsOfOperator => bounds_of_operator(alloc, store, id),
        NodeRow::ArmOfIte => arm_of_ite(alloc, store, id),
    }
}

// Puts what a row gives at a node behind other formulas.
#[tactic(auto, using(crate::proofs::EachLaws::at_one_laws))]
fn at_one<S: TermStore>(
    alloc: Global,
    store: &mut S,
    long_bits: u8,
    row: NodeRow,
    id: S::Id,
    out: &mut Vec<S::Id>,
) -> Result<(), NoMemory>
    requires width { (long_bits ≡ 32) ⊎ (long_bits ≡ 64) }
    requires id_held { S.held store.old id }
    requires out_held { All (S.held store.old) out.old.items }
    ensures older { OnOk result (KeepsOlder (S.held store.old) (S.held store.new) (S.tree store.old) (S.tree store.new)) }
    ensures held { OnOk result (All (S.held store.new) out.new.items) }
    ensures stand { OnOk result (map (S.tree store.new) out.new.items ≡ map (S.tree store.old) out.old.items ++ row_at (node_row long_bits row) (S.tree store.old id)) }
{
    let made = instances_at(alloc, &*store, long_bits, row, id)?;
    make_all(alloc, store, made.ids.as_slice(), &made.formulas, out)?;
    Ok(())
}

/// Puts what a row gives at each of these nodes behind other formulas.
#[tactic(auto, using(crate::proofs::EachLaws::each_done, crate::proofs::EachLaws::none_yet))]
pub fn at_each<S: TermStore>(
    alloc: Global,
    store: &mut S,
    long_bits: u8,
    row: NodeRow,
    nodes: &[S::Id],
    out: &mut Vec<S::Id>,
) -> Result<(), NoMemory>
    requires width { (long_bits ≡ 32) ⊎ (long_bits ≡ 64) }
    requires nodes_held { All (S.held store.old) nodes.now }
    requires out_held { All (S.held store.old) out.old.items }
    ensures older { OnOk result (KeepsOlder (S.held store.old) (S.held store.new) (S.tree store.old) (S.tree store.new)) }
    ensures held { OnOk result (All (S.held store.new) out.new.items) }
    ensures stand { OnOk result (map (S.tree store.new) out.new.items ≡ map (S.tree store.old) out.old.items ++ at_each (node_row long_bits row) (map (S.tree store.old) nodes.now)) }
{
    for node in nodes {
        at_one(alloc, store, long_bits, row, *node, out)?;
    }
    Ok(())
}
