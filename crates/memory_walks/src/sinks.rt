// Where goals go, one at a time.
ghost use Rattle.std.specs.Prelude.{◌≡◌, ◌++◌, ◌∷◌, [], List, length, map, OnOk};
ghost use Rattle.qed_terms.specs.View.{formula_tree};
ghost use Rattle.memory_walks.specs.View.{goals_from, view_place};
ghost use Rattle.walk_steps.specs.Walk as spec;

use memory_worlds::copy_known;
use qed_terms::Formula;
use std::alloc::Global;
use wp_base::{Line, List, NoMemory};

/// What a check asks for, by its number, and its line.
#[derive(Clone, Copy)]
pub struct Place {
    pub kind: u8,
    pub line: Line,
}

/// Where goals go.
pub trait GoalSink {
    /// These goals, in this order, fit what the sink has now; it was the first one before they came.
    ghost fits: { Self → Self → List spec.Goal → Type 0 };

    /// A goal: what its check asks for, what is known there, and what is claimed. Its number is how many came before.
    fn take(&mut self, place: Place, known: &[Formula], claim: &Formula) -> Result<(), NoMemory>
        ensures { (first : Self) (gs : List spec.Goal) → fits first self.old gs → OnOk result (fits first self.new (gs ++ record { number = length gs; place = view_place place; known = map formula_tree known.now; claim = formula_tree claim.now } ∷ [])) };
}

/// A goal that is kept.
#[derive(Drop)]
pub struct Claimed {
    pub place: Place,
    pub known: List<Formula>,
    pub claim: Formula,
}

/// Keeps all goals.
#[derive(Drop)]
pub struct Collector {
    pub alloc: Global,
    pub goals: Vec<Claimed>,
}

impl GoalSink for Collector {
    ghost fits = { λ first now gs. goals_from 0 now.goals.items ≡ gs };

    fn take(&mut self, place: Place, known: &[Formula], claim: &Formula) -> Result<(), NoMemory> {
        let known = List::from_vec(copy_known(self.alloc, known)?);
        let claim = claim.copy(self.alloc)?;
        self.goals.push(Claimed {
            place,
            known,
            claim,
        })?;
        Ok(())
    }
}
