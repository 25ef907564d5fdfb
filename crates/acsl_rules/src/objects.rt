// Elements of arrays, what stands behind where a pointer leads, and sets of these (ACSL 2.2.3, 2.3.4).
ghost use Rattle.std.specs.Prelude.{◌≡◌, IfOk};
ghost use Rattle.acsl_rules.specs.Objects as spec;
ghost use Rattle.acsl_trees.specs.Operands.{view_operand};
ghost use Rattle.acsl_trees.specs.Tree.{view_tree};
ghost use Rattle.c_answers.specs.Answers.{Gives};
ghost use Rattle.c_rules.specs.Pointers.{stride as stride_of_type};
ghost use Rattle.typed_prog.specs.Types.{target_of};

use crate::makers::{one, three, two};
use crate::operators::dereferenced_value;
use crate::sorts::{array_count, content};
use crate::sums::sum;
use crate::values::{integer_value, valued};
use acsl_trees::{Content, Head, Operand, Sort, Tree};
use c_answers::refused;
use c_rules::{element_cells, stride};
use std::alloc::Global;
use typed_prog::CoreType;
use wp_base::{Line, NoMemory, Rule, Stop};

fn element_sort(alloc: Global, sort: Sort) -> Result<Sort, NoMemory>
    ensures { IfOk result (λ s. s ≡ spec.element_sort sort) }
{
    match sort {
        Sort::Object(ty, label) => Ok(Sort::Object(ty.element(alloc)?, label)),
        Sort::Integer(known) => Ok(Sort::Integer(known)),
        Sort::Pointer(ty, null) => Ok(Sort::Pointer(ty, null)),
        Sort::Unknown => Ok(Sort::Unknown),
    }
}

fn element_size(sizes: &[u32], sort: &Sort) -> u32
    ensures { result ≡ spec.element_size sizes.now sort.now }
{
    match sort {
        Sort::Object(ty, _) => element_cells(sizes, ty),
        Sort::Integer(_) | Sort::Pointer(_, _) | Sort::Unknown => 1,
    }
}

fn element(
    alloc: Global,
    sizes: &[u32],
    count: u32,
    array: Operand,
    index: Tree,
) -> Result<Operand, NoMemory>
    ensures { IfOk result (λ x. view_operand x ≡ spec.element sizes.now count (view_operand array) (view_tree index)) }
{
    let Operand { tree, sort } = array;
    let size = element_size(sizes, &sort);
    let sort = element_sort(alloc, sort)?;
    let tree = two(alloc, Head::Element { size, count }, tree, index)?;
    Ok(Operand { tree, sort })
}

#[tactic(auto, using(c_answers::proofs::After::after_laws))]
fn indexed_values(
    alloc: Global,
    sizes: &[u32],
    line: Line,
    left: Operand,
    right: Operand,
) -> Result<Operand, Stop>
    ensures { Gives view_operand result (spec.indexed_values sizes.now line (view_operand left) (view_operand right)) }
{
    let moved = sum(alloc, sizes, line, left, right)?;
    dereferenced_value(alloc, line, moved)
}

/// `left[right]`. `sizes` has the cells of each struct of the file.
#[tactic(auto, using(c_answers::proofs::After::after_laws), unfolding(crate::specs::Objects::indexed))]
pub fn indexed(
    alloc: Global,
    sizes: &[u32],
    line: Line,
    left: Operand,
    right: Operand,
) -> Result<Operand, Stop>
    ensures { Gives view_operand result (spec.indexed sizes.now line (view_operand left) (view_operand right)) }
{
    if let Some(count) = array_count(&left.sort) {
        let index = integer_value(alloc, line, right)?;
        return Ok(element(alloc, sizes, count, left, index)?);
    }
    if let Some(count) = array_count(&right.sort) {
        let index = integer_value(alloc, line, left)?;
        return Ok(element(alloc, sizes, count, right, index)?);
    }
    let left = valued(alloc, line, left)?;
    let right = valued(alloc, line, right)?;
    indexed_values(alloc, sizes, line, left, right)
}

fn behind_pointer(
    alloc: Global,
    sizes: &[u32],
    line: Line,
    ty: &CoreType,
    pointer: Tree,
    low: Tree,
    high: Tree,
) -> Result<Operand, Stop>
    ensures { Gives view_operand result (spec.behind_by line (view_tree pointer) (view_tree low) (view_tree high) (stride_of_type sizes.now ty.now) (target_of ty.now)) }
{
    let Some(size) = stride(sizes, ty) else {
        return Err(refused(Rule::Typing, line));
    };
    let Some((ty, _)) = ty.target(alloc)? else {
        return Err(refused(Rule::Typing, line));
    };
    let tree = three(alloc, Head::Behind { size }, pointer, low, high)?;
    Ok(Operand {
        tree,
        sort: Sort::Object(ty, None),
    })
}

fn behind_value(
    alloc: Global,
    sizes: &[u32],
    line: Line,
    base: Operand,
    low: Tree,
    high: Tree,
) -> Result<Operand, Stop>
    ensures { Gives view_operand result (spec.behind_value sizes.now line (view_operand base) (view_tree low) (view_tree high)) }
{
    let Operand { tree, sort } = base;
    match sort {
        Sort::Pointer(ty, _) => behind_pointer(alloc, sizes, line, &ty, tree, low, high),
        Sort::Unknown => Ok(Operand {
            tree,
            sort: Sort::Unknown,
        }),
        Sort::Object(_, _) => Err(refused(Rule::Typing, line)),
        Sort::Integer(_) => Err(refused(Rule::Typing, line)),
    }
}

#[tactic(auto, using(c_answers::proofs::After::after_laws), unfolding(crate::specs::Objects::behind_base))]
fn behind_base(
    alloc: Global,
    sizes: &[u32],
    line: Line,
    base: Operand,
    low: Tree,
    high: Tree,
) -> Result<Operand, Stop>
    ensures { Gives view_operand result (spec.behind_base sizes.now line (view_operand base) (view_tree low) (view_tree high)) }
{
    let base = valued(alloc, line, base)?;
    behind_value(alloc, sizes, line, base, low, high)
}

fn elements_of(
    alloc: Global,
    sizes: &[u32],
    count: u32,
    array: Operand,
    low: Tree,
    high: Tree,
) -> Result<Operand, NoMemory>
    ensures { IfOk result (λ x. view_operand x ≡ spec.elements_of sizes.now count (view_operand array) (view_tree low) (view_tree high)) }
{
    let Operand { tree, sort } = array;
    let size = element_size(sizes, &sort);
    let sort = element_sort(alloc, sort)?;
    let tree = three(alloc, Head::Elements { size, count }, tree, low, high)?;
    Ok(Operand { tree, sort })
}

fn elements_base(
    alloc: Global,
    sizes: &[u32],
    line: Line,
    base: Operand,
    low: Tree,
    high: Tree,
) -> Result<Operand, Stop>
    ensures { Gives view_operand result (spec.elements_base sizes.now line (view_operand base) (view_tree low) (view_tree high)) }
{
    match array_count(&base.sort) {
        Some(count) => Ok(elements_of(alloc, sizes, count, base, low, high)?),
        None => behind_base(alloc, sizes, line, base, low, high),
    }
}

/// `base[low .. high]`; the line is that of the `[`, and each bound has its own. `sizes` has the cells of each struct of the file.
#[tactic(auto, using(c_answers::proofs::After::after_laws), unfolding(crate::specs::Objects::elements))]
pub fn elements(
    alloc: Global,
    sizes: &[u32],
    line: Line,
    low_line: Line,
    high_line: Line,
    base: Operand,
    low: Operand,
    high: Operand,
) -> Result<Operand, Stop>
    ensures { Gives view_operand result (spec.elements sizes.now line low_line high_line (view_operand base) (view_operand low) (view_operand high)) }
{
    let low = integer_value(alloc, low_line, low)?;
    let high = integer_value(alloc, high_line, high)?;
    elements_base(alloc, sizes, line, base, low, high)
}

/// `*(base + (low .. high))`, and `base + (low .. high)` as a set of pointers: the objects that these lead to. The line is that of the `+`, and
/// each bound has its own. `sizes` has the cells of each struct of the file.
#[tactic(auto, using(c_answers::proofs::After::after_laws), unfolding(crate::specs::Objects::behind))]
pub fn behind(
    alloc: Global,
    sizes: &[u32],
    line: Line,
    low_line: Line,
    high_line: Line,
    base: Operand,
    low: Operand,
    high: Operand,
) -> Result<Operand, Stop>
    ensures { Gives view_operand result (spec.behind sizes.now line low_line high_line (view_operand base) (view_operand low) (view_operand high)) }
{
    let low = integer_value(alloc, low_line, low)?;
    let high = integer_value(alloc, high_line, high)?;
    behind_base(alloc, sizes, line, base, low, high)
}

fn target_content(alloc: Global, ty: &CoreType) -> Result<Option<Content>, NoMemory>
    ensures { IfOk result (λ c. c ≡ spec.target_content (target_of ty.now)) }
{
    match ty.target(alloc)? {
        Some((target, _)) => Ok(content(&target)),
        None => Ok(None),
    }
}

fn region(
    alloc: Global,
    line: Line,
    pointer: Tree,
    content: Option<Content>,
) -> Result<(Tree, Content), Stop>
    ensures { Gives spec.view_region result (spec.region_by line (view_tree pointer) content) }
{
    match content {
        Some(content) => Ok((one(alloc, Head::Pointed, pointer)?, content)),
        None => Err(refused(Rule::Typing, line)),
    }
}

fn region_of(alloc: Global, line: Line, of: Operand) -> Result<(Tree, Content), Stop>
    ensures { Gives spec.view_region result (spec.region_of line (view_operand of)) }
{
    let Operand { tree, sort } = of;
    match sort {
        Sort::Pointer(ty, _) => {
            let content = target_content(alloc, &ty)?;
            region(alloc, line, tree, content)
        }
        Sort::Unknown => region(alloc, line, tree, Some(Content::Pointer)),
        Sort::Object(_, _) => Err(refused(Rule::Typing, line)),
        Sort::Integer(_) => Err(refused(Rule::Typing, line)),
    }
}

/// What a pointer leads to, as a region, and what stands there: an operand of `\valid` and of `\separated`.
#[tactic(auto, using(c_answers::proofs::After::after_laws), unfolding(crate::specs::Objects::pointed))]
pub fn pointed(alloc: Global, line: Line, of: Operand) -> Result<(Tree, Content), Stop>
    ensures { Gives spec.view_region result (spec.pointed line (view_operand of)) }
{
    let of = valued(alloc, line, of)?;
    region_of(alloc, line, of)
}
