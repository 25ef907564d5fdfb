// Sets of formulas by reference.
ghost use Rattle.std.specs.Prelude.{◌≡◌, ◌||◌, [], map, false, not, OnOk, IfOk};
ghost use Rattle.qed_terms.specs.Order.{same};
ghost use Rattle.qed_terms.specs.Tree.{Tree};
ghost use Rattle.qed_terms.specs.View.{formula_tree};
ghost use Rattle.formula_sets.specs.Sets.{are_first, has_tree, is_one_of, some_among};

use crate::keys::Keyed;
use qed_terms::Formula;
use std::alloc::Global;
use std::collections::BTreeSet;
use wp_base::NoMemory;

/// Formulas, each once.
#[derive(Drop)]
pub struct FormulaSet<'a> {
    pub keys: BTreeSet<Keyed<'a>>,
}

/// No formulas.
pub fn no_formulas<'a>(alloc: Global) -> FormulaSet<'a>
    ensures { result.keys.keys ≡ [] }
{
    FormulaSet {
        keys: BTreeSet::new(alloc),
    }
}

impl<'a> FormulaSet<'a> {
    /// Whether the formula is there.
    pub fn has(&self, formula: &'a Formula) -> bool
        ensures { result ≡ has_tree self.now.keys.keys (formula_tree formula.now) }
    {
        self.keys.contains(&Keyed { formula })
    }

    /// One formula more, and whether it wasn't there.
    #[tactic(auto, using(crate::proofs::Inserted::inserted))]
    pub fn insert(&mut self, formula: &'a Formula) -> Result<bool, NoMemory>
        ensures new { IfOk result (λ is_new. is_new ≡ not (has_tree self.old.keys.keys (formula_tree formula.now))) }
        ensures has { OnOk result ((t : Tree) → has_tree self.new.keys.keys t ≡ (same t (formula_tree formula.now) || has_tree self.old.keys.keys t)) }
    {
        match self.keys.insert(Keyed { formula }) {
            Ok(is_new) => Ok(is_new),
            Err(_) => Err(NoMemory),
        }
    }
}

/// The set of some formulas.
#[tactic(auto, using(crate::proofs::Firsts::one_more_there))]
pub fn set_of<'a>(alloc: Global, formulas: &'a [Formula]) -> Result<FormulaSet<'a>, NoMemory>
    ensures { IfOk result (λ set. (t : Tree) → has_tree set.keys.keys t ≡ is_one_of t (map formula_tree formulas.now)) }
{
    let mut set = no_formulas(alloc);
    for formula in formulas {
        set.insert(formula)?;
    }
    Ok(set)
}

/// Of each formula whether it is none before it.
pub fn first_ones(alloc: Global, formulas: &[Formula]) -> Result<Vec<bool>, NoMemory>
    ensures { IfOk result (λ firsts. firsts.items ≡ are_first [] (map formula_tree formulas.now)) }
{
    let mut set = no_formulas(alloc);
    let mut firsts = Vec::new(alloc);
    for formula in formulas {
        let is_new = set.insert(formula)?;
        firsts.push(is_new)?;
    }
    Ok(firsts)
}

/// Whether some formula is among others.
#[tactic(auto, using(crate::proofs::Firsts::none_more, crate::proofs::Firsts::one_found))]
pub fn have_common<'a>(
    alloc: Global,
    formulas: &'a [Formula],
    others: &'a [Formula],
) -> Result<bool, NoMemory>
    ensures { IfOk result (λ found. found ≡ some_among (map formula_tree formulas.now) (map formula_tree others.now)) }
{
    let set = set_of(alloc, others)?;
    for formula in formulas {
        if set.has(formula) {
            return Ok(true);
        }
    }
    Ok(false)
}
