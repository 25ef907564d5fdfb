// What closes literals beside a clash.
ghost use Rattle.std.specs.Prelude.{◌↔◌, ◌<◌, List, All, map, IsTrue, IfOk};
ghost use Rattle.qed_terms.specs.Meaning.{World, Values};
ghost use Rattle.qed_terms.specs.Tree.{Tree};
ghost use Rattle.same_terms.specs.SameTerms.{AreTrue};
ghost use Rattle.tree_places.specs.View.{nodes_of, IsKept};
ghost use Rattle.term_forms.specs.Forms.{tree_of, count_of};
ghost use Rattle.congruence.specs.Closed.{IsClosed};

use congruence::TermClasses;
use std::alloc::Global;
use tree_places::TreeTable;
use wp_base::NoMemory;

/// What closes literals beside a clash, as links of them that can't all hold.
pub trait LiteralTest {
    ghost refuted: { List Tree → Type 0 };

    /// Whether the literals at these places are refuted, by the classes of their terms.
    fn refutes(
        &self,
        alloc: Global,
        table: &TreeTable,
        closed: &TermClasses,
        literals: &[usize],
    ) -> Result<bool, NoMemory>
        requires kept { IsKept table.now }
        requires below { All (λ k. k < count_of table.now) literals.now }
        requires closed { IsClosed (map (tree_of table.now) literals.now) (nodes_of table.now) closed.now.marks.items closed.now.classes.items }
        ensures { IfOk result (λ answer. IsTrue answer ↔ refuted (map (tree_of table.now) literals.now)) };

    /// Literals that are refuted aren't all true.
    ghost sound: { (w : World) (env : Values) (ls : List Tree) → refuted ls → AreTrue w env ls → ⊥ };
}
