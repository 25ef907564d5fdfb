// A store that keeps its nodes in a row.
ghost use Rattle.std.specs.Prelude.{◌≡◌, []};

use crate::head::Head;
use crate::store::TermStore;
use smallvec::SmallVec;
use std::alloc::Global;
use std::marker::Model;
use wp_base::NoMemory;

#[derive(Drop)]
struct Node {
    head: Head,
    kids: SmallVec<usize, 3>,
}

/// Nodes in a row, each after its kids; an id is a place in the row.
#[derive(Drop)]
pub struct TreeStore {
    nodes: Vec<Node>,
    alloc: Global,
}

impl Model for TreeStore {
    ghost use Rattle.std.specs.Prelude.{List, map};
    ghost use Rattle.qed_terms.specs.Rows.{IsOrdered, Row, row_of};

    ghost Value = { List Row };

    ghost view = { λ s. map row_of s.nodes.items };

    ghost invariant = { λ s. IsOrdered (map row_of s.nodes.items) };
}

impl TreeStore {
    pub fn new(alloc: Global) -> TreeStore
        ensures { result ≡ [] }
    {
        TreeStore {
            nodes: Vec::new(alloc),
            alloc,
        }
    }
}

impl TermStore for TreeStore {
    ghost use Rattle.qed_terms.specs.Rows.{Holds, tree_at};

    type Id = usize;

    ghost held = { λ s id. Holds s id };

    ghost tree = { λ s id. tree_at s id };

    ghost well_formed = { λ s id h. h.fits };

    fn make(&mut self, head: Head, kids: &[usize]) -> Result<usize, NoMemory> {
        let id = self.nodes.len();
        let kids = SmallVec::from_slice(self.alloc, kids)?;
        self.nodes.push(Node { head, kids })?;
        Ok(id)
    }

    fn head(&self, id: usize) -> &Head {
        &self.nodes[id].head
    }

    fn kids(&self, id: usize) -> &[usize] {
        self.nodes[id].kids.as_slice()
    }
}
