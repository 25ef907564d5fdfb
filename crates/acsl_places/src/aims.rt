// What `\valid`, `\valid_read` and `\separated` speak of (ACSL 2.7).
ghost use Rattle.std.specs.Prelude.{◌≡◌, map};
ghost use Rattle.acsl_names.specs.Names.{view_around};
ghost use Rattle.acsl_places.specs.Places as spec;
ghost use Rattle.acsl_rules.specs.Objects.{view_region};
ghost use Rattle.acsl_trees.specs.Operands.{view_operand};
ghost use Rattle.acsl_trees.specs.Tree.{view_tree, view_trees};
ghost use Rattle.c_answers.specs.Answers.{Gives};
ghost use Rattle.c_syntax.specs.View.{view_term};

use crate::ranges::range_typed;
use crate::spans::added_range;
use acsl_names::{Around, Bound, Count, Reading};
use acsl_rules::{content, one, pointed};
use acsl_terms::{closed_tree, typed_term};
use acsl_trees::{Content, Head, Operand, Sort, Tree};
use c_answers::refused;
use c_syntax::Term;
use std::alloc::Global;
use wp_base::{Line, List, Rule, Stop};

/// A pointer, or the addresses behind one.
#[derive(Drop)]
pub enum Aim {
    Pointer(Operand),
    Addresses(Operand),
}

#[tactic(auto, using(c_answers::proofs::After::after_laws), unfolding(crate::specs::Places::aimed))]
fn aimed(
    alloc: Global,
    around: &Around<'_>,
    names: &Bound,
    reading: Reading,
    count: &mut Count,
    term: &Term,
) -> Result<Aim, Stop>
    ensures { Gives (λ x. (spec.view_aim x, count.new)) result (spec.aimed (view_around around.now) names.now reading count.old (view_term term.now)) }
{
    if let Some(range) = added_range(term) {
        let reached = range_typed(alloc, around, names, reading, count, false, &range)?;
        return Ok(Aim::Addresses(reached));
    }
    let pointer = typed_term(alloc, around, names, reading, count, term)?;
    Ok(Aim::Pointer(pointer))
}

#[tactic(auto, using(crate::proofs::Turns::aim_laws))]
fn all_aimed(
    alloc: Global,
    around: &Around<'_>,
    names: &Bound,
    reading: Reading,
    count: &mut Count,
    terms: &[Term],
) -> Result<List<Aim>, Stop>
    ensures { Gives (λ xs. (map spec.view_aim xs, count.new)) result (spec.all_aimed (view_around around.now) names.now reading count.old (map view_term terms.now)) }
{
    let mut aims = List::new(alloc);
    for term in terms {
        let aim = aimed(alloc, around, names, reading, count, term)?;
        aims.push(aim)?;
    }
    Ok(aims)
}

fn content_by(line: Line, tree: Tree, content: Option<Content>) -> Result<(Tree, Content), Stop>
    ensures { Gives view_region result (spec.content_by line (view_tree tree) content) }
{
    match content {
        Some(content) => Ok((tree, content)),
        None => Err(refused(Rule::Typing, line)),
    }
}

fn content_of(line: Line, of: Operand) -> Result<(Tree, Content), Stop>
    ensures { Gives view_region result (spec.content_of line (view_tree of.tree) of.sort) }
{
    let Operand { tree, sort } = of;
    match sort {
        Sort::Object(ty, _) => content_by(line, tree, content(&ty)),
        Sort::Integer(_) => Err(refused(Rule::Typing, line)),
        Sort::Pointer(_, _) => Err(refused(Rule::Typing, line)),
        Sort::Unknown => Ok((tree, Content::Pointer)),
    }
}

fn region_of(alloc: Global, line: Line, aim: Aim) -> Result<(Tree, Content), Stop>
    ensures { Gives view_region result (spec.region_of line (spec.view_aim aim)) }
{
    match aim {
        Aim::Addresses(of) => content_of(line, of),
        Aim::Pointer(of) => pointed(alloc, line, of),
    }
}

#[tactic(auto, using(c_answers::proofs::After::after_laws), unfolding(crate::specs::Places::valid_at))]
fn valid_at(alloc: Global, line: Line, writable: bool, aim: Aim) -> Result<Tree, Stop>
    ensures { Gives view_tree result (spec.valid_at line writable (spec.view_aim aim)) }
{
    let (tree, content) = region_of(alloc, line, aim)?;
    Ok(one(alloc, Head::Valid { content, writable }, tree)?)
}

#[tactic(auto, using(c_answers::proofs::After::after_laws))]
fn region_tree(alloc: Global, line: Line, aim: Aim) -> Result<Tree, Stop>
    ensures { Gives view_tree result (spec.region_tree line (spec.view_aim aim)) }
{
    let (tree, content) = region_of(alloc, line, aim)?;
    Ok(one(alloc, Head::Region(content), tree)?)
}

#[tactic(auto, using(crate::proofs::Turns::region_laws))]
fn region_trees(alloc: Global, line: Line, aims: List<Aim>) -> Result<List<Tree>, Stop>
    ensures { Gives view_trees result (spec.region_trees line (map spec.view_aim aims)) }
{
    let mut trees = List::new(alloc);
    for aim in aims.into_vec() {
        let tree = region_tree(alloc, line, aim)?;
        trees.push(tree)?;
    }
    Ok(trees)
}

#[tactic(auto, using(c_answers::proofs::After::after_laws, acsl_trees::proofs::Equations::tree_laws), unfolding(crate::specs::Places::separated_at))]
fn separated_at(alloc: Global, line: Line, aims: List<Aim>) -> Result<Tree, Stop>
    ensures { Gives view_tree result (spec.separated_at line (map spec.view_aim aims)) }
{
    let kids = region_trees(alloc, line, aims)?;
    Ok(Tree {
        head: Head::Separated,
        kids,
    })
}

/// `\valid`, where it may be written too, or `\valid_read`.
#[tactic(auto, using(c_answers::proofs::After::after_laws), unfolding(crate::specs::Places::valid_typed))]
pub fn typed_valid(
    alloc: Global,
    around: &Around<'_>,
    names: &Bound,
    reading: Reading,
    count: &mut Count,
    line: Line,
    writable: bool,
    term: &Term,
) -> Result<Tree, Stop>
    ensures { Gives (λ x. (view_tree x, count.new)) result (spec.valid_typed (view_around around.now) names.now reading count.old line writable (view_term term.now)) }
{
    let before = count.limit;
    count.add_node(line);
    let at = count.limit;
    let aim = aimed(alloc, around, names, reading, count, term)?;
    let valid = valid_at(alloc, line, writable, aim);
    closed_tree(before, at, count, valid)
}

/// `\separated`.
#[tactic(auto, using(c_answers::proofs::After::after_laws), unfolding(crate::specs::Places::separated_typed))]
pub fn typed_separated(
    alloc: Global,
    around: &Around<'_>,
    names: &Bound,
    reading: Reading,
    count: &mut Count,
    line: Line,
    terms: &List<Term>,
) -> Result<Tree, Stop>
    ensures { Gives (λ x. (view_tree x, count.new)) result (spec.separated_typed (view_around around.now) names.now reading count.old line (map view_term terms.now)) }
{
    let before = count.limit;
    count.add_node(line);
    let at = count.limit;
    let aims = all_aimed(alloc, around, names, reading, count, terms.as_slice())?;
    let separated = separated_at(alloc, line, aims);
    closed_tree(before, at, count, separated)
}
