// What stands for the terms of a branch: rows, pairs, and which places are of it.
ghost use Rattle.std.specs.Prelude.{◌≡◌, ◌<◌, ◌++◌, All, map, OnOk, IfOk};
ghost use Rattle.same_places.specs.View.{row_of};
ghost use Rattle.same_terms.specs.Stands.{StandsFor, Stand};
ghost use Rattle.tree_places.specs.Tables.{Grows};
ghost use Rattle.tree_places.specs.View.{numbers_of, nodes_of, IsKept};
ghost use Rattle.term_forms.specs.Forms.{tree_of, count_of};
ghost use Rattle.branch_rows.specs.Branch.{rest_places, MarkBranch};

use crate::marks::marks_under;
use crate::rows::marked_rows;
use same_places::ClassRow;
use std::alloc::Global;
use term_rests::branch_pairs;
use tree_places::TreeTable;
use wp_base::NoMemory;

/// The rows of the terms of a branch, the pairs of its equalities, and which places have a term of it.
#[derive(Drop)]
pub struct BranchRows {
    pub rows: Vec<ClassRow>,
    pub pairs: Vec<(usize, usize)>,
    pub marks: Vec<bool>,
}

/// The places of the literals, and those of the rests.
fn root_places(
    alloc: Global,
    literals: &[usize],
    pairs: &[(usize, usize)],
) -> Result<Vec<usize>, NoMemory>
    ensures { IfOk result (λ roots. roots.items ≡ literals.now ++ rest_places pairs.now) }
{
    let mut roots = Vec::from_slice(alloc, literals)?;
    for pair in pairs {
        roots.push(pair.1)?;
    }
    Ok(roots)
}

/// What stands for the terms of the branch of these literals.
pub fn branch_rows(
    alloc: Global,
    table: &mut TreeTable,
    literals: &[usize],
) -> Result<BranchRows, NoMemory>
    requires kept { IsKept table.old }
    requires below { All (λ k. k < count_of table.old) literals.now }
    ensures kept { OnOk result (IsKept table.new) }
    ensures grows { OnOk result (Grows (nodes_of table.old) (nodes_of table.new)) }
    ensures marks { IfOk result (λ branch. MarkBranch (map (tree_of table.old) literals.now) (count_of table.new) (tree_of table.new) branch.marks.items) }
    ensures stand { IfOk result (λ branch. Stand (map (tree_of table.old) literals.now) (count_of table.new) (tree_of table.new) (StandsFor (numbers_of table.new.heads)) (map row_of branch.rows.items) branch.pairs.items) }
{
    let pairs = branch_pairs(alloc, table, literals)?;
    let roots = root_places(alloc, literals, pairs.as_slice())?;
    let marks = marks_under(alloc, table, roots.as_slice())?;
    let rows = marked_rows(alloc, table, marks.as_slice())?;
    Ok(BranchRows { rows, pairs, marks })
}
