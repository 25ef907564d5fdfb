// The nodes of formulas that stand outside of quantifiers.
ghost use Rattle.std.specs.Prelude.{◌≡◌, ◌++◌, map, All, OnOk};
ghost use Rattle.instance_rows.specs.Occurrences.{nodes_in, nodes_among};

use qed_terms::TermStore;
use term_forms::is_binder;
use wp_base::NoMemory;

/// Puts the nodes of a formula that stand outside of quantifiers behind others: a node before its kids, from the left.
pub fn push_nodes<S: TermStore>(store: &S, id: S::Id, out: &mut Vec<S::Id>) -> Result<(), NoMemory>
    requires id { S.held store.now id }
    requires out { All (S.held store.now) out.old.items }
    ensures nodes { OnOk result (map (S.tree store.now) out.new.items ≡ map (S.tree store.now) out.old.items ++ nodes_in (S.tree store.now id)) }
    ensures held { OnOk result (All (S.held store.now) out.new.items) }
{
    out.push(id)?;
    if is_binder(store.head(id)) {
        return Ok(());
    }
    let kids = store.kids(id);
    for kid in kids {
        push_nodes(store, *kid, out)?;
    }
    Ok(())
}

/// The nodes of formulas that stand outside of quantifiers.
pub fn all_nodes<S: TermStore>(
    store: &S,
    ids: &[S::Id],
    out: &mut Vec<S::Id>,
) -> Result<(), NoMemory>
    requires ids { All (S.held store.now) ids.now }
    requires out { All (S.held store.now) out.old.items }
    ensures nodes { OnOk result (map (S.tree store.now) out.new.items ≡ map (S.tree store.now) out.old.items ++ nodes_among (map (S.tree store.now) ids.now)) }
    ensures held { OnOk result (All (S.held store.now) out.new.items) }
{
    for id in ids {
        push_nodes(store, *id, out)?;
    }
    Ok(())
}
