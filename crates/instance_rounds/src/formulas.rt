// All formulas of a round, in order.
ghost use Rattle.std.specs.Prelude.{◌≡◌, true, All, map, OnOk, IfOk};
ghost use Rattle.qed_terms.specs.Setting.{is_regular};
ghost use Rattle.qed_terms.specs.Store.{KeepsOlder};
ghost use Rattle.qed_terms.specs.View.{view_setting};
ghost use Rattle.instance_rows.specs.Round.{formulas};
ghost use Rattle.instance_rounds.specs.Formulas.{rows_of};

use crate::steps::put_rows;
use call_instances::calls_at_each;
use qed_terms::{Setting, TermStore};
use std::alloc::Global;
use wp_base::NoMemory;

// The rows at nodes, and behind them the formulas on offsets.
fn with_offsets<S: TermStore>(
    alloc: Global,
    store: &mut S,
    world: &Setting,
    literals: &[S::Id],
    nodes: &[S::Id],
    offsets: &[S::Id],
) -> Result<Vec<S::Id>, NoMemory>
    requires regular { is_regular (view_setting world.now) ≡ true }
    requires literals { All (S.held store.old) literals.now }
    requires nodes { All (S.held store.old) nodes.now }
    requires offsets { All (S.held store.old) offsets.now }
    ensures older { OnOk result (KeepsOlder (S.held store.old) (S.held store.new) (S.tree store.old) (S.tree store.new)) }
    ensures held { IfOk result (λ made. All (S.held store.new) made.items) }
    ensures stand { IfOk result (λ made. map (S.tree store.new) made.items ≡ rows_of (view_setting world.now) (map (S.tree store.old) literals.now) (map (S.tree store.old) nodes.now) (map (S.tree store.old) offsets.now)) }
{
    let mut out = Vec::new(alloc);
    put_rows(alloc, store, world.long_bits, literals, nodes, &mut out)?;
    out.extend_from_slice(offsets)?;
    Ok(out)
}

/// All formulas of a round, where those on offsets and those of `forall`s are given.
pub fn in_order<S: TermStore>(
    alloc: Global,
    store: &mut S,
    world: &Setting,
    literals: &[S::Id],
    nodes: &[S::Id],
    offsets: &[S::Id],
    foralls: &[S::Id],
) -> Result<Vec<S::Id>, NoMemory>
    requires regular { is_regular (view_setting world.now) ≡ true }
    requires literals { All (S.held store.old) literals.now }
    requires nodes { All (S.held store.old) nodes.now }
    requires offsets { All (S.held store.old) offsets.now }
    requires foralls { All (S.held store.old) foralls.now }
    ensures older { OnOk result (KeepsOlder (S.held store.old) (S.held store.new) (S.tree store.old) (S.tree store.new)) }
    ensures held { IfOk result (λ made. All (S.held store.new) made.items) }
    ensures stand { IfOk result (λ made. map (S.tree store.new) made.items ≡ formulas (view_setting world.now) (map (S.tree store.old) literals.now) (map (S.tree store.old) nodes.now) (map (S.tree store.old) offsets.now) (map (S.tree store.old) foralls.now)) }
{
    let mut out = with_offsets(alloc, store, world, literals, nodes, offsets)?;
    calls_at_each(alloc, store, &world.logic, nodes, &mut out)?;
    out.extend_from_slice(foralls)?;
    Ok(out)
}
