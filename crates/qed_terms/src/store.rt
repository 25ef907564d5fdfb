// Stores of terms and formulas.
ghost use Rattle.std.specs.Prelude.{◌≡◌, true, map, All, OnOk, IfOk};
ghost use Rattle.qed_terms.specs.Tree.{Tree, head_of};
ghost use Rattle.qed_terms.specs.Meaning.{World, Values, head_meaning, meaning};
ghost use Rattle.qed_terms.specs.Nodes.{kids_of};
ghost use Rattle.qed_terms.specs.Store.{KeepsOlder, is_well_formed, over};

use crate::head::Head;
use std::hash::Hash;
use wp_base::NoMemory;

/// A store of terms and formulas. Each id that it holds stands for one tree.
pub trait TermStore {
    type Id: Copy + Eq + Hash;

    /// Which ids the store holds.
    ghost held: { Self → Self.Id → Type 0 };

    /// The tree that an id stands for.
    ghost tree: { Self → Self.Id → Tree };

    /// The id of a head over kids, which fit its sorts. It stands for the head over the trees of its kids,
    /// and means what the head makes of their meanings. Every older id keeps its tree.
    fn make(&mut self, head: Head, kids: &[Self::Id]) -> Result<Self::Id, NoMemory>
        requires held { All (held self.old) kids.now }
        requires fit { is_well_formed (over head (map (tree self.old) kids.now)) ≡ true }
        ensures older { OnOk result (KeepsOlder (held self.old) (held self.new) (tree self.old) (tree self.new)) }
        ensures made { IfOk result (λ id. held self.new id) }
        ensures stands { IfOk result (λ id. tree self.new id ≡ over head (map (tree self.old) kids.now)) }
        ensures means { IfOk result (λ id. (w : World) (env : Values) → meaning w env (tree self.new id) ≡ head_meaning w head (λ env'. map (λ k. meaning w env' (tree self.old k)) kids.now) env) };

    /// The head of the tree.
    fn head(&self, id: Self::Id) -> &Head
        requires { held self.now id }
        ensures { result.now ≡ head_of (tree self.now id) };

    /// The ids of the tree's kids.
    fn kids(&self, id: Self::Id) -> &[Self::Id]
        requires { held self.now id }
        ensures held { All (held self.now) result.now }
        ensures stand { map (tree self.now) result.now ≡ kids_of (tree self.now id) };

    /// What the store holds is well formed.
    ghost well_formed: { (s : Self) (id : Self.Id) → held s id → is_well_formed (tree s id) ≡ true };
}
