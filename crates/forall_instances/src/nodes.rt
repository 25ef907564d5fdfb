// The nodes of a formula in which a name means what it means in the whole formula.
ghost use Rattle.std.specs.Prelude.{◌≡◌, ◌<◌, ◌≤◌, ◌++◌, length, take, map, All, OnOk};
ghost use Rattle.qed_terms.specs.declared.head.Sort.TheVariants as sorts;
ghost use Rattle.qed_terms.specs.Free.{binds};
ghost use Rattle.qed_terms.specs.Tree.{head_of, kids_in, size};
ghost use Rattle.instance_rows.specs.Triggers.{nodes_below, nodes_with};
ghost use Rattle.forall_instances.specs.Nodes.{nodes_each};

use qed_terms::{Sort, TermStore};
use stored_puts::binds;
use wp_base::NoMemory;

fn first_two<I: Copy + Drop>(items: &[I]) -> &[I]
    requires { 2 ≤ length items.now }
    ensures { result.now ≡ take 2 items.now }
{
    &items[..2]
}

// The kids in which the name isn't bound by the head: all of them, or the bounds of a quantifier over the name.
fn open_kids<'a, S: TermStore>(store: &'a S, name: &[u8], id: S::Id) -> &'a [S::Id]
    requires { S.held store.now id }
    ensures held { All (S.held store.now) result.now }
    ensures smaller { All (λ k. size (S.tree store.now k) < size (S.tree store.now id)) result.now }
    ensures open { nodes_below (binds name.now sorts.Int (head_of (S.tree store.now id))) name.now (kids_in (S.tree store.now id)) ≡ nodes_each name.now (map (S.tree store.now) result.now) }
{
    let kids = store.kids(id);
    if binds(name, Sort::Int, store.head(id)) {
        return first_two(kids);
    }
    kids
}

/// Puts the nodes around which no quantifier over the name stands behind others: a node before its kids, from the left.
pub fn push_nodes_with<S: TermStore>(
    store: &S,
    name: &[u8],
    id: S::Id,
    out: &mut Vec<S::Id>,
) -> Result<(), NoMemory>
    requires id { S.held store.now id }
    requires out { All (S.held store.now) out.old.items }
    ensures nodes { OnOk result (map (S.tree store.now) out.new.items ≡ map (S.tree store.now) out.old.items ++ nodes_with name.now (S.tree store.now id)) }
    ensures held { OnOk result (All (S.held store.now) out.new.items) }
{
    out.push(id)?;
    let kids = open_kids(store, name, id);
    for kid in kids {
        push_nodes_with(store, name, *kid, out)?;
    }
    Ok(())
}
