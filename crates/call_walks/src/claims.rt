// What a function that is called requires, and what it promises (ACSL 2.3.1, 2.3.3).
ghost use Rattle.std.specs.Prelude.{◌≡◌, ◌++◌, false, map, IfOk, OnOk};
ghost use Rattle.acsl_trees.specs.Tree.{view_trees};
ghost use Rattle.call_walks.specs.Claimed as spec;
ghost use Rattle.core_trees.specs.View.{view_claim};
ghost use Rattle.program_steps.specs.Words as words;
ghost use Rattle.program_trees.specs.View.{view_behavior, view_contract, view_facts};
ghost use Rattle.qed_terms.specs.View.{formula_tree};

use core_trees::Claim;
use program_trees::{Behavior, Contract, Facts};
use qed_terms::Formula;
use std::alloc::Global;
use walk_frames::{Labels, Texts, assumed_in, claim_in};
use wp_base::{List, NoMemory};

// Where this is assumed; outside of behaviors nothing is.
fn under(
    alloc: Global,
    is_plain: bool,
    assumed: &Formula,
    claim: Formula,
) -> Result<Formula, NoMemory>
    ensures { IfOk result (λ made. formula_tree made ≡ words.under is_plain (formula_tree assumed.now) (formula_tree claim)) }
{
    if is_plain {
        return Ok(claim);
    }
    Formula::implication(alloc, assumed.copy(alloc)?, claim)
}

// Claims where this is assumed, behind those before.
fn push_under<'a, T: Texts>(
    alloc: Global,
    facts: &'a Facts,
    texts: &'a T,
    labels: Labels<'a>,
    is_plain: bool,
    assumed: &Formula,
    claims: &[Claim],
    made: &mut List<Formula>,
) -> Result<(), NoMemory>
    ensures { OnOk result (map formula_tree made.new ≡ map formula_tree made.old ++ spec.claims_under (view_facts facts.now) (T.text texts.now) labels.entry is_plain (formula_tree assumed.now) (map view_claim claims.now)) }
{
    for claim in claims {
        let formula = claim_in(alloc, facts, texts, labels, &claim.what)?;
        made.push(under(alloc, is_plain, assumed, formula)?)?;
    }
    Ok(())
}

// Claims of a behavior.
fn push_claims<'a, T: Texts>(
    alloc: Global,
    facts: &'a Facts,
    texts: &'a T,
    entered: Labels<'a>,
    labels: Labels<'a>,
    is_plain: bool,
    behavior: &Behavior,
    claims: &List<Claim>,
    made: &mut List<Formula>,
) -> Result<(), NoMemory>
    ensures { OnOk result (map formula_tree made.new ≡ map formula_tree made.old ++ spec.claims_in (view_facts facts.now) (T.text texts.now) entered.entry labels.entry is_plain (view_trees behavior.now.assumes) (map view_claim claims.now)) }
{
    let claims = claims.as_slice();
    let assumed = assumed_in(alloc, facts, texts, entered, behavior.assumes.as_slice())?;
    push_under(
        alloc, facts, texts, labels, is_plain, &assumed, claims, made,
    )?;
    Ok(())
}

// What behaviors require, each where it is assumed.
fn push_required<'a, T: Texts>(
    alloc: Global,
    facts: &'a Facts,
    texts: &'a T,
    entered: Labels<'a>,
    behaviors: &[Behavior],
    made: &mut List<Formula>,
) -> Result<(), NoMemory>
    ensures { OnOk result (map formula_tree made.new ≡ map formula_tree made.old ++ spec.joined (spec.required_by (view_facts facts.now) (T.text texts.now) entered.entry false) (map view_behavior behaviors.now)) }
{
    for behavior in behaviors {
        let claims = &behavior.requires_;
        push_claims(
            alloc, facts, texts, entered, entered, false, behavior, claims, made,
        )?;
    }
    Ok(())
}

// What behaviors promise.
fn push_promised<'a, T: Texts>(
    alloc: Global,
    facts: &'a Facts,
    texts: &'a T,
    entered: Labels<'a>,
    returned: Labels<'a>,
    behaviors: &[Behavior],
    made: &mut List<Formula>,
) -> Result<(), NoMemory>
    ensures { OnOk result (map formula_tree made.new ≡ map formula_tree made.old ++ spec.joined (spec.promised_by (view_facts facts.now) (T.text texts.now) entered.entry returned.entry false) (map view_behavior behaviors.now)) }
{
    for behavior in behaviors {
        let claims = &behavior.ensures_;
        push_claims(
            alloc, facts, texts, entered, returned, false, behavior, claims, made,
        )?;
    }
    Ok(())
}

/// What a function requires, where it is entered.
pub(crate) fn required<'a, T: Texts>(
    alloc: Global,
    facts: &'a Facts,
    texts: &'a T,
    entered: Labels<'a>,
    contract: &Contract,
) -> Result<List<Formula>, NoMemory>
    ensures { IfOk result (λ made. map formula_tree made ≡ spec.required_in (view_facts facts.now) (T.text texts.now) entered.entry (view_contract contract.now)) }
{
    let mut made = List::new(alloc);
    let plain = &contract.plain;
    let claims = &plain.requires_;
    push_claims(
        alloc, facts, texts, entered, entered, true, plain, claims, &mut made,
    )?;
    let behaviors = contract.behaviors.as_slice();
    push_required(alloc, facts, texts, entered, behaviors, &mut made)?;
    Ok(made)
}

/// What it promises, where it has returned.
pub(crate) fn promised<'a, T: Texts>(
    alloc: Global,
    facts: &'a Facts,
    texts: &'a T,
    entered: Labels<'a>,
    returned: Labels<'a>,
    contract: &Contract,
) -> Result<List<Formula>, NoMemory>
    ensures { IfOk result (λ made. map formula_tree made ≡ spec.promised_in (view_facts facts.now) (T.text texts.now) entered.entry returned.entry (view_contract contract.now)) }
{
    let mut made = List::new(alloc);
    let plain = &contract.plain;
    let claims = &plain.ensures_;
    push_claims(
        alloc, facts, texts, entered, returned, true, plain, claims, &mut made,
    )?;
    let behaviors = contract.behaviors.as_slice();
    push_promised(alloc, facts, texts, entered, returned, behaviors, &mut made)?;
    Ok(made)
}
