// Trees by the number of their kids.
ghost use Rattle.std.specs.Prelude.{◌≡◌, IfOk};
ghost use Rattle.acsl_trees.specs.Tree as t;
ghost use Rattle.acsl_trees.specs.Tree.{view_tree};

use acsl_trees::{Head, Tree};
use std::alloc::Global;
use wp_base::{List, NoMemory};

/// A tree without kids.
#[tactic(auto, using(acsl_trees::proofs::Equations::tree_laws))]
pub fn leaf(alloc: Global, head: Head) -> Tree
    ensures { view_tree result ≡ t.leaf head }
{
    Tree {
        head,
        kids: List::new(alloc),
    }
}

/// A tree with one kid.
#[tactic(auto, using(acsl_trees::proofs::Equations::tree_laws))]
pub fn one(alloc: Global, head: Head, kid: Tree) -> Result<Tree, NoMemory>
    ensures { IfOk result (λ tree. view_tree tree ≡ t.one head (view_tree kid)) }
{
    let mut kids = List::new(alloc);
    kids.push(kid)?;
    Ok(Tree { head, kids })
}

/// A tree with two kids.
#[tactic(auto, using(acsl_trees::proofs::Equations::tree_laws))]
pub fn two(alloc: Global, head: Head, first: Tree, second: Tree) -> Result<Tree, NoMemory>
    ensures { IfOk result (λ tree. view_tree tree ≡ t.two head (view_tree first) (view_tree second)) }
{
    let mut kids = List::new(alloc);
    kids.push(first)?;
    kids.push(second)?;
    Ok(Tree { head, kids })
}

/// A tree with three kids.
#[tactic(auto, using(acsl_trees::proofs::Equations::tree_laws))]
pub fn three(
    alloc: Global,
    head: Head,
    first: Tree,
    second: Tree,
    third: Tree,
) -> Result<Tree, NoMemory>
    ensures { IfOk result (λ tree. view_tree tree ≡ t.three head (view_tree first) (view_tree second) (view_tree third)) }
{
    let mut kids = List::new(alloc);
    kids.push(first)?;
    kids.push(second)?;
    kids.push(third)?;
    Ok(Tree { head, kids })
}
