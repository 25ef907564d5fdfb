// Rows at each of several pairs of nodes.
ghost use Rattle.std.specs.Prelude.{◌≡◌, ◌⊎◌, ◌++◌, map, All, OnOk, IfOk};
ghost use Rattle.qed_terms.specs.Store.{KeepsOlder};
ghost use Rattle.instance_rows.specs.Occurrences.{at_each, at_pairs};
ghost use Rattle.drawn_instances.specs.Drawn.{AreDrawn};
ghost use Rattle.pair_instances.specs.Facts.{row_of_pair};
ghost use Rattle.pair_instances.specs.PairRows.{begins, pair_row, row_after};

use crate::frames::frame_of_load;
use crate::layouts::answer_of_layout;
use crate::ranges::range_of_load;
use drawn_instances::Instances;
use qed_terms::{FormOp, Head, TermStore};
use std::alloc::Global;
use term_sketches::make_all;
use wp_base::NoMemory;

/// A row at two nodes.
#[derive(Clone, Copy)]
pub enum PairRow {
    FrameOfLoad,
    RangeOfLoad,
    AnswerOfLayout,
}

/// Whether the row gives formulas at a first node with this head.
fn begins(row: PairRow, head: &Head) -> bool
    ensures { result ≡ begins row head.now }
{
    match head {
        Head::Form(FormOp::Frame(_)) => match row {
            PairRow::FrameOfLoad => true,
            PairRow::RangeOfLoad | PairRow::AnswerOfLayout => false,
        },
        Head::Form(FormOp::WellFormed(_)) => match row {
            PairRow::RangeOfLoad => true,
            PairRow::FrameOfLoad | PairRow::AnswerOfLayout => false,
        },
        Head::Form(FormOp::Has(_)) => match row {
            PairRow::AnswerOfLayout => true,
            PairRow::FrameOfLoad | PairRow::RangeOfLoad => false,
        },
        _ => false,
    }
}

/// What a row gives at two nodes. `long` has 32 or 64 bits.
pub fn instances_at<S: TermStore>(
    alloc: Global,
    store: &S,
    long_bits: u8,
    row: PairRow,
    first: S::Id,
    second: S::Id,
) -> Result<Instances<S::Id>, NoMemory>
    requires first { S.held store.now first }
    requires second { S.held store.now second }
    requires width { (long_bits ≡ 32) ⊎ (long_bits ≡ 64) }
    ensures { IfOk result (λ made. AreDrawn (S.held store.now) (S.tree store.now) made.ids.items made.formulas (row_of_pair (pair_row long_bits row) (S.tree store.now first) (S.tree store.now second))) }
{
    match row {
        PairRow::FrameOfLoad => frame_of_load(alloc, store, first, second),
        PairRow::RangeOfLoad => range_of_load(alloc, store, long_bits, first, second),
        PairRow::AnswerOfLayout => answer_of_layout(alloc, store, first, second),
    }
}

// Puts what a row gives at two nodes behind other formulas.
#[tactic(auto, using(node_instances::proofs::EachLaws::at_one_laws))]
fn at_two<S: TermStore>(
    alloc: Global,
    store: &mut S,
    long_bits: u8,
    row: PairRow,
    first: S::Id,
    second: S::Id,
    out: &mut Vec<S::Id>,
) -> Result<(), NoMemory>
    requires width { (long_bits ≡ 32) ⊎ (long_bits ≡ 64) }
    requires first { S.held store.old first }
    requires second { S.held store.old second }
    requires out_held { All (S.held store.old) out.old.items }
    ensures older { OnOk result (KeepsOlder (S.held store.old) (S.held store.new) (S.tree store.old) (S.tree store.new)) }
    ensures held { OnOk result (All (S.held store.new) out.new.items) }
    ensures stand { OnOk result (map (S.tree store.new) out.new.items ≡ map (S.tree store.old) out.old.items ++ row_of_pair (pair_row long_bits row) (S.tree store.old first) (S.tree store.old second)) }
{
    let made = instances_at(alloc, &*store, long_bits, row, first, second)?;
    make_all(alloc, store, made.ids.as_slice(), &made.formulas, out)?;
    Ok(())
}

// Puts what a row gives at a node, with each of these behind it, behind other formulas.
#[tactic(auto, using(node_instances::proofs::EachLaws::each_done, node_instances::proofs::EachLaws::none_yet))]
fn at_seconds<S: TermStore>(
    alloc: Global,
    store: &mut S,
    long_bits: u8,
    row: PairRow,
    first: S::Id,
    seconds: &[S::Id],
    out: &mut Vec<S::Id>,
) -> Result<(), NoMemory>
    requires width { (long_bits ≡ 32) ⊎ (long_bits ≡ 64) }
    requires first { S.held store.old first }
    requires seconds { All (S.held store.old) seconds.now }
    requires out_held { All (S.held store.old) out.old.items }
    ensures older { OnOk result (KeepsOlder (S.held store.old) (S.held store.new) (S.tree store.old) (S.tree store.new)) }
    ensures held { OnOk result (All (S.held store.new) out.new.items) }
    ensures stand { OnOk result (map (S.tree store.new) out.new.items ≡ map (S.tree store.old) out.old.items ++ at_each (row_after (pair_row long_bits row) (S.tree store.old first)) (map (S.tree store.old) seconds.now)) }
{
    for second in seconds {
        at_two(alloc, store, long_bits, row, first, *second, out)?;
    }
    Ok(())
}

// Of a first node with whichever head.
#[tactic(auto, using(crate::proofs::PairLaws::begin_laws))]
fn at_first<S: TermStore>(
    alloc: Global,
    store: &mut S,
    long_bits: u8,
    row: PairRow,
    first: S::Id,
    seconds: &[S::Id],
    out: &mut Vec<S::Id>,
) -> Result<(), NoMemory>
    requires width { (long_bits ≡ 32) ⊎ (long_bits ≡ 64) }
    requires first { S.held store.old first }
    requires seconds { All (S.held store.old) seconds.now }
    requires out_held { All (S.held store.old) out.old.items }
    ensures older { OnOk result (KeepsOlder (S.held store.old) (S.held store.new) (S.tree store.old) (S.tree store.new)) }
    ensures held { OnOk result (All (S.held store.new) out.new.items) }
    ensures stand { OnOk result (map (S.tree store.new) out.new.items ≡ map (S.tree store.old) out.old.items ++ at_each (row_after (pair_row long_bits row) (S.tree store.old first)) (map (S.tree store.old) seconds.now)) }
{
    if !begins(row, store.head(first)) {
        return Ok(());
    }
    at_seconds(alloc, store, long_bits, row, first, seconds, out)?;
    Ok(())
}

/// Puts what a row gives at each of these pairs behind other formulas: with the first nodes one after the other, and for each all of the second ones.
#[tactic(auto, using(crate::proofs::PairLaws::pairs_done, crate::proofs::PairLaws::no_pairs))]
pub fn at_pairs<S: TermStore>(
    alloc: Global,
    store: &mut S,
    long_bits: u8,
    row: PairRow,
    firsts: &[S::Id],
    seconds: &[S::Id],
    out: &mut Vec<S::Id>,
) -> Result<(), NoMemory>
    requires width { (long_bits ≡ 32) ⊎ (long_bits ≡ 64) }
    requires firsts { All (S.held store.old) firsts.now }
    requires seconds { All (S.held store.old) seconds.now }
    requires out_held { All (S.held store.old) out.old.items }
    ensures older { OnOk result (KeepsOlder (S.held store.old) (S.held store.new) (S.tree store.old) (S.tree store.new)) }
    ensures held { OnOk result (All (S.held store.new) out.new.items) }
    ensures stand { OnOk result (map (S.tree store.new) out.new.items ≡ map (S.tree store.old) out.old.items ++ at_pairs (pair_row long_bits row) (map (S.tree store.old) firsts.now) (map (S.tree store.old) seconds.now)) }
{
    for first in firsts {
        at_first(alloc, store, long_bits, row, *first, seconds, out)?;
    }
    Ok(())
}
