// Nodes in a row, each found again by its head's number and its kids.
ghost use Rattle.std.specs.Prelude.{◌≡◌, ◌⊎◌, ◌<◌, ◌++◌, ◌∷◌, [], ℕ, List, Some, None, length, map, All, OnOk, IfOk};
ghost use Rattle.qed_terms.specs.Tree.{node, trees_of};
ghost use Rattle.tree_places.specs.Heads.{KeepsNumbers};
ghost use Rattle.tree_places.specs.Tables.{Node, tree_at, Grows};
ghost use Rattle.tree_places.specs.View.{numbers_of, find_in, node_of, nodes_of, IsKept};

use crate::heads::{Heads, number_of};
use qed_terms::Head;
use std::alloc::Global;
use std::collections::HashMap;
use wp_base::NoMemory;

/// A head, its number, and the places of its kids.
#[derive(Drop)]
pub struct TreeNode {
    pub head: Head,
    pub number: usize,
    pub kids: Vec<usize>,
}

/// Nodes in a row, each over places before its own, and where each is found.
#[derive(Drop)]
pub struct TreeTable {
    pub nodes: Vec<TreeNode>,
    pub heads: Heads,
    pub places: HashMap<Vec<usize>, usize>,
}

/// A table with no tree.
pub fn empty(alloc: Global) -> TreeTable
    ensures kept { IsKept result }
    ensures none { nodes_of result ≡ [] }
{
    TreeTable {
        nodes: Vec::new(alloc),
        heads: Heads {
            numbers: HashMap::new(alloc),
            count: 0,
        },
        places: HashMap::new(alloc),
    }
}

fn find_at(places: &HashMap<Vec<usize>, usize>, key: &[usize]) -> Option<usize>
    ensures { result ≡ find_in places.now.entries key.now }
{
    places.get(key).copied()
}

fn note(
    places: &mut HashMap<Vec<usize>, usize>,
    key: Vec<usize>,
    place: usize,
) -> Result<(), NoMemory>
    ensures new { OnOk result (find_in places.new.entries key.items ≡ Some place) }
    ensures others { OnOk result ((other : List ℕ) → (other ≡ key.items) ⊎ (find_in places.new.entries other ≡ find_in places.old.entries other)) }
{
    places.insert(key, place)?;
    Ok(())
}

fn key_of(alloc: Global, number: usize, kids: &[usize]) -> Result<Vec<usize>, NoMemory>
    ensures { IfOk result (λ key. key.items ≡ number ∷ kids.now) }
{
    let mut key = Vec::new(alloc);
    key.push(number)?;
    key.extend_from_slice(kids)?;
    Ok(key)
}

/// A node that isn't there yet.
fn add(table: &mut TreeTable, node: TreeNode, key: Vec<usize>) -> Result<usize, NoMemory>
    requires kept { IsKept table.old }
    requires key { key.items ≡ node.number ∷ node.kids.items }
    requires none { find_in table.old.places.entries key.items ≡ None }
    requires numbered { numbers_of table.old.heads node.head ≡ Some node.number }
    requires kids { All (λ k. k < length (nodes_of table.old)) node.kids.items }
    ensures kept { OnOk result (IsKept table.new) }
    ensures more { OnOk result (nodes_of table.new ≡ nodes_of table.old ++ node_of node ∷ []) }
    ensures place { IfOk result (λ place. place ≡ length (nodes_of table.old)) }
{
    let place = table.nodes.len();
    table.nodes.push(node)?;
    note(&mut table.places, key, place)?;
    Ok(place)
}

/// The place of a head over the trees at some places: a new one where it has none.
pub fn put(
    alloc: Global,
    table: &mut TreeTable,
    head: &Head,
    kids: Vec<usize>,
) -> Result<usize, NoMemory>
    requires kept { IsKept table.old }
    requires kids { All (λ k. k < length (nodes_of table.old)) kids.items }
    ensures kept { OnOk result (IsKept table.new) }
    ensures grows { OnOk result (Grows (nodes_of table.old) (nodes_of table.new)) }
    ensures below { IfOk result (λ place. place < length (nodes_of table.new)) }
    ensures tree { IfOk result (λ place. tree_at (nodes_of table.new) place ≡ node head.now (trees_of (map (tree_at (nodes_of table.old)) kids.items))) }
{
    let number = number_of(alloc, &mut table.heads, head)?;
    let key = key_of(alloc, number, kids.as_slice())?;
    match find_at(&table.places, key.as_slice()) {
        Some(place) => Ok(place),
        None => {
            let head = head.copy(alloc)?;
            let place = add(table, TreeNode { head, number, kids }, key)?;
            Ok(place)
        }
    }
}
