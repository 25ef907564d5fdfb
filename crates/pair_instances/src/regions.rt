// The formulas of regions: where an address lies. Slot 0 has its block and slot 1 its offset, two memories stand in the slots behind them, and the terms of the
// regions from slot 4 on.
ghost use Rattle.std.specs.Prelude.{◌≡◌, ◌+◌, ◌≤◌, ◌++◌, ℕ, List, length, map, drop, OnOk};
ghost use Rattle.qed_terms.specs.Tree.{Tree, trees_of};
ghost use Rattle.term_sketches.specs.Sketches.{sketch_tree, slots, Draws};
ghost use Rattle.instance_rows.specs.PairRows.{in_regions};
ghost use Rattle.pair_instances.specs.Regions.{cells_of, region_at, terms_of};

use qed_terms::Shape;
use std::alloc::Global;
use term_sketches::{Draft, Sketch, and_of, at_most, equal, less, slot};
use wp_base::{List, NoMemory};

/// How many terms a region has.
fn terms_of(shape: Shape) -> usize
    ensures { result ≡ terms_of shape }
{
    match shape {
        Shape::Cells => 3,
        Shape::New => 1,
    }
}

fn in_cells(alloc: Global, block: usize, low: usize, high: usize) -> Draft
    ensures { (f : ℕ → Tree) → Draws f result (cells_of (f 0) (f 1) (f block) (f low) (f high)) }
{
    and_of(
        alloc,
        [
            equal(alloc, slot(0), slot(block)),
            at_most(alloc, slot(low), slot(1)),
            less(alloc, slot(1), slot(high)),
        ],
    )
}

/// That the address lies in the region whose terms stand from a slot on.
fn in_region(alloc: Global, shape: Shape, at: usize, count: usize) -> Draft
    requires { at + terms_of shape ≤ count }
    ensures { (f : ℕ → Tree) → Draws f result (region_at shape f at) }
{
    match shape {
        Shape::Cells => in_cells(alloc, at, at + 1, at + 2),
        Shape::New => at_most(alloc, slot(at), slot(0)),
    }
}

/// Puts for each region that the address lies in it, where there are so many slots.
pub fn put_regions(
    alloc: Global,
    shapes: &[Shape],
    count: usize,
    parts: &mut List<Sketch>,
) -> Result<(), NoMemory>
    requires { 4 ≤ count }
    ensures { OnOk result ((us : List Tree) → length us ≡ count → map (sketch_tree (slots us)) parts.new ≡ map (sketch_tree (slots us)) parts.old ++ in_regions shapes.now (trees_of (drop 4 us)) (slots us 0) (slots us 1)) }
{
    let mut at = 4;
    for shape in shapes {
        let terms = terms_of(*shape);
        if count - at < terms {
            return Ok(());
        }
        let part = in_region(alloc, *shape, at, count)?;
        parts.push(part)?;
        at += terms;
    }
    Ok(())
}
