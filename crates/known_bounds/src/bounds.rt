// Names with ranges in which their values lie.
ghost use Rattle.std.specs.Prelude.{◌≡◌, ◌⊎◌, List, IfOk, OnOk};
ghost use Rattle.qed_terms.specs.Meaning.{Values};
ghost use Rattle.known_bounds.specs.Bounds.{AreKept, Extends};
ghost use Rattle.known_bounds.specs.Ranges.{IsIn};

use crate::ranges::{Range, anything, both, either};
use std::alloc::Global;
use wp_base::{NoMemory, Str};

/// An integer's name, and where its value lies.
#[derive(Drop)]
pub struct Bound {
    pub name: Str,
    pub range: Range,
}

/// Where the value of a name lies, by the last of its bounds.
#[tactic(auto, using(crate::proofs::Kept::named))]
pub(crate) fn range_of_name(bounds: &[Bound], name: &Str) -> Range
    ensures { (env : Values) → AreKept env bounds.now → IsIn result (env.ints name.now) }
{
    for at in (0..bounds.len()).rev() {
        let bound = &bounds[at];
        if bound.name.is_same(name) {
            return bound.range;
        }
    }
    anything()
}

/// The name's value lies in this range too: one bound more, where that tells more.
#[tactic(auto, using(crate::proofs::Kept::kept_more))]
pub(crate) fn narrow(
    alloc: Global,
    bounds: &mut Vec<Bound>,
    name: &Str,
    range: Range,
) -> Result<(), NoMemory>
    ensures kept { (env : Values) → AreKept env bounds.old.items → IsIn range (env.ints name.now) → OnOk result (AreKept env bounds.new.items) }
    ensures front { OnOk result (Extends bounds.old.items bounds.new.items) }
{
    let known = range_of_name(bounds.as_slice(), name);
    let range = both(known, range);
    if range.low == known.low && range.high == known.high {
        return Ok(());
    }
    let name = name.copy(alloc)?;
    bounds.push(Bound { name, range })?;
    Ok(())
}

/// The bounds from a place on.
pub(crate) fn bounds_from(
    alloc: Global,
    bounds: &[Bound],
    start: usize,
) -> Result<Vec<Bound>, NoMemory>
    ensures { (env : Values) → AreKept env bounds.now → IfOk result (λ found. AreKept env found.items) }
{
    let mut found = Vec::new(alloc);
    for at in start..bounds.len() {
        let bound = &bounds[at];
        let name = bound.name.copy(alloc)?;
        found.push(Bound {
            name,
            range: bound.range,
        })?;
    }
    Ok(found)
}

/// What is told of names where either these bounds hold or those: of each name the range over both.
pub(crate) fn widen(
    alloc: Global,
    bounds: &mut Vec<Bound>,
    first: &[Bound],
    second: &[Bound],
) -> Result<(), NoMemory>
    ensures kept { (env : Values) → AreKept env bounds.old.items → AreKept env first.now ⊎ AreKept env second.now → OnOk result (AreKept env bounds.new.items) }
    ensures front { OnOk result (Extends bounds.old.items bounds.new.items) }
{
    for at in 0..first.len() {
        let bound = &first[at];
        let name = &bound.name;
        let around = range_of_name(bounds.as_slice(), name);
        let here = both(around, range_of_name(first, name));
        let there = both(around, range_of_name(second, name));
        narrow(alloc, bounds, name, either(here, there))?;
    }
    Ok(())
}
