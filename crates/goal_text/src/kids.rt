// The kids of a node, as they are read.
ghost use Rattle.std.specs.Prelude.{◌≡◌};
ghost use Rattle.goal_text.specs.Reader as spec;
ghost use Rattle.goal_text.specs.Views.{kids_view};

use qed_terms::{Formula, Shape, Term};
use std::alloc::Global;
use wp_base::List;

/// The formulas, the terms and the shapes of regions that a node is made of, each in their order.
#[derive(Drop)]
pub struct Kids {
    pub formulas: List<Formula>,
    pub terms: List<Term>,
    pub shapes: List<Shape>,
}

impl Kids {
    pub fn new(alloc: Global) -> Kids
        ensures { kids_view result ≡ spec.no_kids }
    {
        Kids {
            formulas: List::new(alloc),
            terms: List::new(alloc),
            shapes: List::new(alloc),
        }
    }
}

/// The item of a list that has no other.
pub fn only_one<T: Drop>(list: List<T>) -> Option<T>
    ensures { result ≡ spec.only_one list }
{
    let mut items = list.into_vec();
    if items.len() != 1 {
        return None;
    }
    items.pop()
}

/// The items of a list that has two.
pub fn only_two<T: Drop>(list: List<T>) -> Option<(T, T)>
    ensures { result ≡ spec.only_two list }
{
    let mut items = list.into_vec();
    if items.len() != 2 {
        return None;
    }
    let second = items.pop()?;
    let first = items.pop()?;
    Some((first, second))
}
