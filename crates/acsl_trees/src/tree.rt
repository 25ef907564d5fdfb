// Typed annotations (ACSL 2.2).
ghost use Rattle.std.specs.Prelude.{◌≡◌, IfOk};

use crate::heads::Head;
use std::alloc::Global;
use wp_base::{List, NoMemory};

/// A node of a typed term, set of addresses or predicate.
#[derive(Drop)]
pub struct Tree {
    pub head: Head,
    pub kids: List<Tree>,
}

impl Tree {
    /// A copy, which equals its source.
    #[cycle(tree_copy)]
    pub fn copy(&self, alloc: Global) -> Result<Tree, NoMemory>
        ensures { IfOk result (λ copy. copy ≡ self.now) }
    {
        let kids = copies(alloc, self.kids.as_slice())?;
        Ok(Tree {
            head: self.head,
            kids,
        })
    }
}

#[cycle(tree_copy)]
fn copies(alloc: Global, trees: &[Tree]) -> Result<List<Tree>, NoMemory>
    ensures { IfOk result (λ copies. copies ≡ trees.now) }
{
    let mut made = List::new(alloc);
    for tree in trees {
        made.push(tree.copy(alloc)?)?;
    }
    Ok(made)
}
