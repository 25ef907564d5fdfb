// Clauses of predicates, numbers and regions.
ghost use Rattle.std.specs.Prelude.{◌≡◌, IfOk, map};
ghost use Rattle.std.specs.Option.{option_map};
ghost use Rattle.acsl_clauses.specs.Clauses as spec;
ghost use Rattle.acsl_clauses.specs.Typed.{view_said};
ghost use Rattle.acsl_names.specs.Names.{view_around};
ghost use Rattle.acsl_trees.specs.Tree.{view_tree, view_trees};
ghost use Rattle.c_answers.specs.Answers.{Gives};
ghost use Rattle.c_syntax.specs.View.{view_pred, view_term};

use crate::items::Role;
use crate::typed::Said;
use acsl_names::{Around, Bound, Count, Limit, Reading, Site, Weight};
use acsl_places::typed_entry;
use acsl_preds::typed_pred;
use acsl_rules::passed;
use acsl_terms::{closed_tree, typed_term};
use acsl_trees::{TermType, Tree};
use c_syntax::{Pred, Term};
use name_table::Scopes;
use std::alloc::Global;
use wp_base::{List, NoMemory, Stop};

/// No name is bound.
pub(crate) fn no_names(alloc: Global) -> Bound
    ensures { result ≡ spec.no_names }
{
    Bound {
        scopes: Scopes::new(alloc),
        types: List::new(alloc),
    }
}

/// Nothing is counted yet.
pub(crate) fn at_start(alloc: Global) -> Result<Count, NoMemory>
    ensures { IfOk result (λ count. count ≡ spec.at_start) }
{
    Ok(Count {
        limit: Limit::Counting,
        weight: Weight::none(alloc, 0)?,
    })
}

fn site_of(role: Role, site: Site) -> Site
    ensures { result ≡ spec.site_of role site }
{
    match role {
        Role::Ensures => Site::Ensures,
        Role::Requires => site,
        Role::Assumes => site,
        Role::Invariant => site,
    }
}

#[tactic(auto, using(c_answers::proofs::After::after_laws))]
pub(crate) fn claim_typed(
    alloc: Global,
    around: &Around<'_>,
    count: &mut Count,
    role: Role,
    pred: &Pred,
) -> Result<Said, Stop>
    ensures { Gives (λ x. (view_said x, count.new)) result (spec.claim_typed (view_around around.now) count.old role (view_pred pred.now)) }
{
    let around = around.at_site(site_of(role, around.site));
    let mut names = no_names(alloc);
    let tree = typed_pred(alloc, &around, &mut names, Reading::current(), count, pred)?;
    Ok(Said::Claims(role, tree))
}

/// A term that is an integer, where no name is bound.
#[tactic(auto, using(c_answers::proofs::After::after_laws, c_syntax::proofs::Lines::term_line_is))]
pub fn integer_typed(
    alloc: Global,
    around: &Around<'_>,
    count: &mut Count,
    term: &Term,
) -> Result<Tree, Stop>
    ensures { Gives (λ x. (view_tree x, count.new)) result (spec.integer_typed (view_around around.now) count.old (view_term term.now)) }
{
    let before = count.limit;
    let names = no_names(alloc);
    let of = typed_term(alloc, around, &names, Reading::current(), count, term)?;
    let value = passed(alloc, term.line, &TermType::Integer, of);
    closed_tree(before, before, count, value)
}

#[tactic(auto, using(c_answers::proofs::After::after_laws))]
pub(crate) fn measure_typed(
    alloc: Global,
    around: &Around<'_>,
    count: &mut Count,
    term: &Term,
) -> Result<Said, Stop>
    ensures { Gives (λ x. (view_said x, count.new)) result (spec.measure_typed (view_around around.now) count.old (view_term term.now)) }
{
    Ok(Said::Decreases(integer_typed(alloc, around, count, term)?))
}

#[tactic(auto, using(crate::proofs::Turns::turn_laws))]
fn entries_typed(
    alloc: Global,
    around: &Around<'_>,
    count: &mut Count,
    entries: &[Term],
) -> Result<List<Tree>, Stop>
    ensures { Gives (λ xs. (view_trees xs, count.new)) result (spec.entries_typed (view_around around.now) count.old (map view_term entries.now)) }
{
    let names = no_names(alloc);
    let mut regions = Vec::new(alloc);
    for i in 0..entries.len() {
        let entry = &entries[i];
        let region = typed_entry(alloc, around, &names, Reading::current(), count, entry)?;
        regions.push(region)?;
    }
    Ok(List::from_vec(regions))
}

#[tactic(auto, using(c_answers::proofs::After::after_laws))]
pub(crate) fn assigns_typed(
    alloc: Global,
    around: &Around<'_>,
    count: &mut Count,
    set: &Option<List<Term>>,
) -> Result<Said, Stop>
    ensures { Gives (λ x. (view_said x, count.new)) result (spec.assigns_typed (view_around around.now) count.old (option_map (map view_term) set.now)) }
{
    let regions = match set {
        Some(entries) => entries_typed(alloc, around, count, entries.as_slice())?,
        None => List::new(alloc),
    };
    Ok(Said::Assigns(regions))
}
