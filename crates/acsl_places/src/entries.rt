// Entries of `assigns` (ACSL 2.3.4).
ghost use Rattle.std.specs.Prelude.{◌≡◌, IfOk};
ghost use Rattle.acsl_names.specs.Names.{view_around};
ghost use Rattle.acsl_places.specs.Places as spec;
ghost use Rattle.acsl_places.specs.Spans.{indexed_range as indexed_range_of, starred_range as starred_range_of};
ghost use Rattle.acsl_trees.specs.Operands.{view_operand};
ghost use Rattle.acsl_trees.specs.Tree.{view_tree};
ghost use Rattle.c_answers.specs.Answers.{Gives};
ghost use Rattle.c_syntax.specs.View.{view_term};

use crate::ranges::range_typed;
use crate::spans::{indexed_range, starred_range};
use acsl_names::{Around, Bound, Count, Reading};
use acsl_rules::{content, leaf, one, three};
use acsl_terms::{closed_tree, local_of, misshapen, typed_term};
use acsl_trees::{Content, Head, Operand, Sort, Tree};
use c_rules::element_cells;
use c_syntax::Term;
use std::alloc::Global;
use typed_prog::CoreType;
use wp_base::{Line, NoMemory, Stop};

#[tactic(auto, using(c_syntax::proofs::Lines::term_line_is))]
fn entry_by(
    alloc: Global,
    around: &Around<'_>,
    names: &Bound,
    reading: Reading,
    count: &mut Count,
    term: &Term,
) -> Result<Operand, Stop>
    ensures { Gives (λ x. (view_operand x, count.new)) result (spec.entry_by (view_around around.now) names.now reading count.old (view_term term.now) (indexed_range_of (view_term term.now)) (starred_range_of (view_term term.now))) }
{
    if let Some(range) = indexed_range(term) {
        return range_typed(alloc, around, names, reading, count, true, &range);
    }
    if let Some(range) = starred_range(term) {
        count.add_node(term.line);
        return range_typed(alloc, around, names, reading, count, false, &range);
    }
    typed_term(alloc, around, names, reading, count, term)
}

fn is_own_parameter(around: &Around<'_>, local: Option<u32>) -> bool
    ensures { result ≡ spec.is_own_parameter (view_around around.now) local }
{
    match local {
        Some(local) => around.site.is_contract() && (local as usize) < around.params,
        None => false,
    }
}

fn region_with(
    alloc: Global,
    line: Line,
    tree: Tree,
    content: Option<Content>,
) -> Result<Tree, Stop>
    ensures { Gives view_tree result (spec.region_with line (view_tree tree) content) }
{
    match content {
        Some(content) => Ok(one(alloc, Head::Region(content), tree)?),
        None => Err(misshapen(line)),
    }
}

fn whole_array(
    alloc: Global,
    around: &Around<'_>,
    ty: &CoreType,
    tree: Tree,
    count: u32,
) -> Result<Tree, NoMemory>
    ensures { IfOk result (λ whole. view_tree whole ≡ spec.whole_array (view_around around.now) ty.now (view_tree tree) count) }
{
    let size = element_cells(around.sizes, ty);
    let first = leaf(alloc, Head::Number(0));
    let last = leaf(alloc, Head::Number(count as i128 - 1));
    three(alloc, Head::Elements { size, count }, tree, first, last)
}

fn region_by(
    alloc: Global,
    around: &Around<'_>,
    line: Line,
    ty: &CoreType,
    tree: Tree,
    count: Option<u32>,
) -> Result<Tree, Stop>
    ensures { Gives view_tree result (spec.region_by (view_around around.now) line ty.now (view_tree tree) count) }
{
    match count {
        Some(count) => {
            let element = ty.element(alloc)?;
            let whole = whole_array(alloc, around, ty, tree, count)?;
            region_with(alloc, line, whole, content(&element))
        }
        None => region_with(alloc, line, tree, content(ty)),
    }
}

fn named_object(
    alloc: Global,
    around: &Around<'_>,
    line: Line,
    ty: &CoreType,
    tree: Tree,
) -> Result<Tree, Stop>
    ensures { Gives view_tree result (spec.named_object (view_around around.now) line ty.now (view_tree tree)) }
{
    if is_own_parameter(around, local_of(&tree)) {
        return Err(misshapen(line));
    }
    region_by(alloc, around, line, ty, tree, ty.count)
}

fn entry_region(alloc: Global, around: &Around<'_>, line: Line, of: Operand) -> Result<Tree, Stop>
    ensures { Gives view_tree result (spec.entry_region (view_around around.now) line (view_tree of.tree) of.sort) }
{
    let Operand { tree, sort } = of;
    match sort {
        Sort::Object(ty, label) => match label {
            None => named_object(alloc, around, line, &ty, tree),
            Some(_) => Err(misshapen(line)),
        },
        Sort::Integer(_) => Err(misshapen(line)),
        Sort::Pointer(_, _) => Err(misshapen(line)),
        Sort::Unknown => Err(misshapen(line)),
    }
}

/// An entry of `assigns`: a region with what stands at each of its addresses, or the first fault in it.
#[tactic(auto, using(c_answers::proofs::After::after_laws, c_syntax::proofs::Lines::term_line_is), unfolding(crate::specs::Places::entry))]
pub fn typed_entry(
    alloc: Global,
    around: &Around<'_>,
    names: &Bound,
    reading: Reading,
    count: &mut Count,
    term: &Term,
) -> Result<Tree, Stop>
    ensures { Gives (λ x. (view_tree x, count.new)) result (spec.entry (view_around around.now) names.now reading count.old (view_term term.now)) }
{
    let before = count.limit;
    let of = entry_by(alloc, around, names, reading, count, term)?;
    let region = entry_region(alloc, around, term.line, of);
    closed_tree(before, before, count, region)
}
