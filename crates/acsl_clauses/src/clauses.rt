// The clauses of a contract or of a loop, typed in the order of the text.
ghost use Rattle.std.specs.Prelude.{◌≡◌, IfOk, map};
ghost use Rattle.acsl_clauses.specs.Clauses as spec;
ghost use Rattle.acsl_clauses.specs.Items.{view_item};
ghost use Rattle.acsl_clauses.specs.Typed.{view_clause, view_said};
ghost use Rattle.acsl_names.specs.Names.{view_around};
ghost use Rattle.acsl_trees.specs.Tree.{view_tree};
ghost use Rattle.c_answers.specs.Answers.{Gives};
ghost use Rattle.c_syntax.specs.View.{view_behavior, view_contract, view_loop, view_pred};

use crate::claims::{assigns_typed, at_start, claim_typed, measure_typed, no_names};
use crate::items::{Group, Item, contract_items, loop_items};
use crate::named::{behavior_named, numbers_of};
use crate::typed::{Said, TypedClause};
use acsl_names::{Around, Count, Reading, ended, limited};
use acsl_preds::typed_pred;
use acsl_trees::Tree;
use c_syntax::{Behavior, Contract, LoopAnnot, Names, Pred};
use name_table::Table;
use std::alloc::Global;
use wp_base::{Line, List, Stop};

/// What is known behind a clause.
#[derive(Drop)]
pub(crate) struct Known {
    /// The behaviors so far, by their names.
    pub(crate) behaviors: Table<u32>,
    pub(crate) count: Count,
}

#[tactic(auto, using(acsl_terms::proofs::Closing::ended_gives))]
fn behavior_begins(alloc: Global, known: &mut Known, behavior: &Behavior) -> Result<Said, Stop>
    ensures begins { Gives (λ x. (view_said x, known.new.behaviors)) result (spec.behavior_begins known.old (view_behavior behavior.now)) }
    ensures count { known.new.count ≡ known.old.count }
{
    let limit = known.count.limit;
    let named = behavior_named(alloc, &mut known.behaviors, behavior);
    ended(limit, limit, limit, named)
}

#[tactic(auto, using(c_answers::proofs::After::after_laws))]
fn behavior_typed(
    alloc: Global,
    known: &mut Known,
    behavior: &Behavior,
) -> Result<TypedClause, Stop>
    ensures { Gives (λ x. (view_clause x, known.new)) result (spec.behavior_typed known.old (view_behavior behavior.now)) }
{
    let said = behavior_begins(alloc, known, behavior)?;
    Ok(TypedClause {
        said,
        line: behavior.line,
    })
}

#[tactic(auto, using(acsl_terms::proofs::Closing::ended_gives))]
fn together_numbers(alloc: Global, known: &Known, names: &Names) -> Result<List<u32>, Stop>
    ensures { Gives (λ x. x) result (spec.together_numbers known.now names.now) }
{
    let limit = known.count.limit;
    let numbers = numbers_of(alloc, &known.behaviors, names.line, names.names.as_slice());
    ended(limit, limit, limit, numbers)
}

#[tactic(auto, using(c_answers::proofs::After::after_laws))]
fn together_typed(
    alloc: Global,
    known: &Known,
    group: Group,
    names: &Names,
) -> Result<TypedClause, Stop>
    ensures { Gives view_clause result (spec.together_typed known.now group names.now) }
{
    let numbers = together_numbers(alloc, known, names)?;
    Ok(TypedClause {
        said: Said::Together(group, numbers),
        line: names.line,
    })
}

#[tactic(auto, using(c_answers::proofs::After::after_laws), unfolding(crate::specs::Clauses::clause_typed))]
fn clause_typed(
    alloc: Global,
    around: &Around<'_>,
    known: &mut Known,
    item: Item<'_>,
) -> Result<TypedClause, Stop>
    ensures { Gives (λ x. (view_clause x, known.new)) result (spec.clause_typed (view_around around.now) known.old (view_item item.entry)) }
{
    match item {
        Item::Claim(role, clause) => {
            let said = claim_typed(alloc, around, &mut known.count, role, &clause.pred)?;
            Ok(TypedClause {
                said,
                line: clause.line,
            })
        }
        Item::Measure(measure) => {
            let said = measure_typed(alloc, around, &mut known.count, &measure.term)?;
            Ok(TypedClause {
                said,
                line: measure.line,
            })
        }
        Item::Assigns(assigns) => {
            let said = assigns_typed(alloc, around, &mut known.count, &assigns.set)?;
            Ok(TypedClause {
                said,
                line: assigns.line,
            })
        }
        Item::Behavior(behavior) => behavior_typed(alloc, known, behavior),
        Item::Together(group, names) => together_typed(alloc, known, group, names),
    }
}

#[tactic(auto, using(crate::proofs::Turns::turn_laws))]
fn clauses_typed(
    alloc: Global,
    around: &Around<'_>,
    known: &mut Known,
    items: &[Item<'_>],
) -> Result<List<TypedClause>, Stop>
    ensures { Gives (λ xs. (map view_clause xs, known.new)) result (spec.clauses_typed (view_around around.now) known.old (map view_item items.now)) }
{
    let mut clauses = Vec::new(alloc);
    for i in 0..items.len() {
        let clause = clause_typed(alloc, around, known, items[i])?;
        clauses.push(clause)?;
    }
    Ok(List::from_vec(clauses))
}

#[tactic(auto, using(c_answers::proofs::After::after_laws))]
fn items_typed(
    alloc: Global,
    around: &Around<'_>,
    items: &[Item<'_>],
) -> Result<List<TypedClause>, Stop>
    ensures { Gives (map view_clause) result (spec.items_typed (view_around around.now) (map view_item items.now)) }
{
    let mut known = Known {
        behaviors: Table::new(alloc),
        count: at_start(alloc)?,
    };
    let clauses = clauses_typed(alloc, around, &mut known, items)?;
    limited(known.count.limit)?;
    Ok(clauses)
}

/// The clauses of a contract in the order of the text, or the first fault in them.
#[tactic(auto, unfolding(crate::specs::Clauses::contract_typed))]
pub fn typed_contract(
    alloc: Global,
    around: &Around<'_>,
    contract: &Contract,
) -> Result<List<TypedClause>, Stop>
    ensures { Gives (map view_clause) result (spec.contract_typed (view_around around.now) (view_contract contract.now)) }
{
    let items = contract_items(alloc, contract)?;
    items_typed(alloc, around, items.as_slice())
}

/// The clauses of a loop in the order of the text, or the first fault in them.
#[tactic(auto, unfolding(crate::specs::Clauses::loop_typed))]
pub fn typed_loop(
    alloc: Global,
    around: &Around<'_>,
    annot: &LoopAnnot,
) -> Result<List<TypedClause>, Stop>
    ensures { Gives (map view_clause) result (spec.loop_typed (view_around around.now) (view_loop annot.now)) }
{
    let items = loop_items(alloc, annot)?;
    items_typed(alloc, around, items.as_slice())
}

/// What an assertion claims, or the first fault in it.
#[tactic(auto, using(c_answers::proofs::After::after_laws), unfolding(crate::specs::Clauses::assertion_typed))]
pub fn typed_assertion(alloc: Global, around: &Around<'_>, pred: &Pred) -> Result<Tree, Stop>
    ensures { Gives view_tree result (spec.assertion_typed (view_around around.now) (view_pred pred.now)) }
{
    let mut names = no_names(alloc);
    let mut count = at_start(alloc)?;
    let tree = typed_pred(
        alloc,
        around,
        &mut names,
        Reading::current(),
        &mut count,
        pred,
    )?;
    limited(count.limit)?;
    Ok(tree)
}
