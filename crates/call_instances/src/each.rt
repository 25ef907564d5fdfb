// Calls at each of several nodes.
ghost use Rattle.std.specs.Prelude.{◌≡◌, ◌++◌, map, All, OnOk};
ghost use Rattle.qed_terms.specs.Store.{KeepsOlder};
ghost use Rattle.qed_terms.specs.View.{view_logic};
ghost use Rattle.instance_rows.specs.Calls as calls;
ghost use Rattle.instance_rows.specs.Occurrences.{at_each};
ghost use Rattle.drawn_instances.specs.Drawn.{row_at};

use crate::cases::cases_of_call;
use qed_terms::{LogicFn, TermStore};
use std::alloc::Global;
use term_sketches::make_all;
use wp_base::{List, NoMemory};

// Puts what the row gives at a node behind other formulas.
#[tactic(auto, using(node_instances::proofs::EachLaws::at_one_laws))]
fn call_at_one<S: TermStore>(
    alloc: Global,
    store: &mut S,
    functions: &List<LogicFn>,
    id: S::Id,
    out: &mut Vec<S::Id>,
) -> Result<(), NoMemory>
    requires id_held { S.held store.old id }
    requires out_held { All (S.held store.old) out.old.items }
    ensures older { OnOk result (KeepsOlder (S.held store.old) (S.held store.new) (S.tree store.old) (S.tree store.new)) }
    ensures held { OnOk result (All (S.held store.new) out.new.items) }
    ensures stand { OnOk result (map (S.tree store.new) out.new.items ≡ map (S.tree store.old) out.old.items ++ row_at (calls.cases_of_call (map view_logic functions.now)) (S.tree store.old id)) }
{
    let made = cases_of_call(alloc, &*store, functions, id)?;
    make_all(alloc, store, made.ids.as_slice(), &made.formulas, out)?;
    Ok(())
}

/// Puts what the row at calls gives at each of these nodes behind other formulas.
#[tactic(auto, using(node_instances::proofs::EachLaws::each_done, node_instances::proofs::EachLaws::none_yet))]
pub fn calls_at_each<S: TermStore>(
    alloc: Global,
    store: &mut S,
    functions: &List<LogicFn>,
    nodes: &[S::Id],
    out: &mut Vec<S::Id>,
) -> Result<(), NoMemory>
    requires nodes_held { All (S.held store.old) nodes.now }
    requires out_held { All (S.held store.old) out.old.items }
    ensures older { OnOk result (KeepsOlder (S.held store.old) (S.held store.new) (S.tree store.old) (S.tree store.new)) }
    ensures held { OnOk result (All (S.held store.new) out.new.items) }
    ensures stand { OnOk result (map (S.tree store.new) out.new.items ≡ map (S.tree store.old) out.old.items ++ at_each (calls.cases_of_call (map view_logic functions.now)) (map (S.tree store.old) nodes.now)) }
{
    for node in nodes {
        call_at_one(alloc, store, functions, *node, out)?;
    }
    Ok(())
}
