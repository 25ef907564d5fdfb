// Whether the sets of a function that is called lie in the set in force (ACSL 2.3.2).
ghost use Rattle.std.specs.Prelude.{◌≡◌, ◌++◌, [], if◌then◌else◌, ℕ, List, false, true, map, IfOk, OnOk};
ghost use Rattle.std.specs.List.{list_all};
ghost use Rattle.std.specs.Option.{option_map};
ghost use Rattle.acsl_trees.specs.Tree as acsl;
ghost use Rattle.acsl_trees.specs.Tree.{view_tree, view_trees};
ghost use Rattle.call_walks.specs.Claimed as spec_claims;
ghost use Rattle.call_walks.specs.Sets as spec;
ghost use Rattle.call_words.specs.Sets as words;
ghost use Rattle.program_steps.specs.Functions as functions;
ghost use Rattle.program_steps.specs.Leaves.{fill};
ghost use Rattle.program_steps.specs.Terms.{assumed_tree, entry_reading};
ghost use Rattle.program_steps.specs.Words as forces;
ghost use Rattle.program_trees.specs.View.{view_behavior, view_contract, view_facts};
ghost use Rattle.qed_terms.specs.Tree as qed;
ghost use Rattle.qed_terms.specs.View.{formula_tree};
ghost use Rattle.step_walks.specs.View.{view_state};
ghost use Rattle.step_walks.specs.Walks.{states};
ghost use Rattle.walk_frames.specs.View.{facts_in, shape_in, view_force};
ghost use Rattle.wp_base.specs.declared.kinds.Kind.{Kind};

use acsl_trees::{Head, Tree};
use program_trees::{Behavior, Contract, Facts};
use qed_terms::Formula;
use std::alloc::Global;
use step_walks::State;
use typed_prog::Variable;
use walk_frames::{
    Force, Frame, Labels, Texts, as_one_unless, assumed_in, claim_under, has_variable,
};
use wp_base::{List, NoMemory};

// ---- regions

// A region's only kid, where it is a variable of the file, is named.
fn is_head_in(around: &[Tree], head: &Head, kids: &[Tree]) -> bool
    ensures { result ≡ spec.head_is_in (view_trees around.now) head.now (view_trees kids.now) }
{
    match head {
        Head::Variable(variable) => match variable {
            Variable::Global(_) => !kids.is_empty() || has_variable(around, *variable),
            Variable::Local(_) => true,
        },
        _ => true,
    }
}

// A region that is a variable of the file is named.
#[tactic(auto, using(acsl_trees::proofs::Equations::tree_laws))]
fn is_in(around: &[Tree], region: &Tree) -> bool
    ensures { result ≡ words.is_in (view_trees around.now) (view_tree region.now) }
{
    match &region.head {
        Head::Region(_) => {
            let kids = region.kids.as_slice();
            kids.len() != 1 || is_head_in(around, &kids[0].head, kids[0].kids.as_slice())
        }
        _ => true,
    }
}

fn all_in(around: &[Tree], regions: &[Tree]) -> bool
    ensures { result ≡ list_all (words.is_in (view_trees around.now)) (view_trees regions.now) }
{
    for region in regions {
        if !is_in(around, region) {
            return false;
        }
    }
    true
}

// ---- sets of the function

#[tactic(auto, using(crate::proofs::Parts::truth_true, crate::proofs::Parts::truth_false))]
fn truth(is_so: bool) -> Formula
    ensures { formula_tree result ≡ words.truth_tree is_so }
{
    if is_so { Formula::True } else { Formula::False }
}

// One stands alone, and none is `false`.
#[tactic(auto, using(crate::proofs::Parts::no_part, crate::proofs::Parts::only_part, crate::proofs::Parts::many_parts))]
fn any_of(parts: List<Formula>) -> Formula
    ensures { formula_tree result ≡ functions.any_of (map formula_tree parts) }
{
    if parts.len() > 1 {
        return Formula::or(parts);
    }
    let mut parts = parts.into_vec();
    if parts.is_empty() {
        Formula::False
    } else {
        parts.remove(0)
    }
}

// A clause's set lies in this one, where the behavior is assumed; outside of behaviors nothing is.
fn inside<'a, T: Texts>(
    alloc: Global,
    facts: &'a Facts,
    texts: &'a T,
    entered: Labels<'a>,
    is_plain: bool,
    behavior: &Behavior,
    is_inside: bool,
) -> Result<Formula, NoMemory>
    ensures { IfOk result (λ made. formula_tree made ≡ spec.inside_tree (view_facts facts.now) (T.text texts.now) entered.entry is_plain (view_trees behavior.now.assumes) is_inside) }
{
    let truth = truth(is_inside);
    if is_plain {
        return Ok(truth);
    }
    let assumed = assumed_in(alloc, facts, texts, entered, behavior.assumes.as_slice())?;
    Formula::both(alloc, assumed, truth)
}

fn push_within<'a, T: Texts>(
    alloc: Global,
    facts: &'a Facts,
    texts: &'a T,
    entered: Labels<'a>,
    around: &[Tree],
    is_plain: bool,
    behavior: &Behavior,
    made: &mut List<Formula>,
) -> Result<(), NoMemory>
    ensures { OnOk result (map formula_tree made.new ≡ map formula_tree made.old ++ spec.within_by (view_facts facts.now) (T.text texts.now) entered.entry (view_trees around.now) is_plain (view_behavior behavior.now)) }
{
    let Some(regions) = &behavior.assigns else {
        return Ok(());
    };
    let is_inside = all_in(around, regions.as_slice());
    made.push(inside(alloc, facts, texts, entered, is_plain, behavior, is_inside)?)?;
    Ok(())
}

// Those of behaviors.
fn push_all_within<'a, T: Texts>(
    alloc: Global,
    facts: &'a Facts,
    texts: &'a T,
    entered: Labels<'a>,
    around: &[Tree],
    behaviors: &[Behavior],
    made: &mut List<Formula>,
) -> Result<(), NoMemory>
    ensures { OnOk result (map formula_tree made.new ≡ map formula_tree made.old ++ spec_claims.joined (spec.within_by (view_facts facts.now) (T.text texts.now) entered.entry (view_trees around.now) false) (map view_behavior behaviors.now)) }
{
    for behavior in behaviors {
        push_within(alloc, facts, texts, entered, around, false, behavior, made)?;
    }
    Ok(())
}

// The sets of all clauses.
fn all_within<'a, T: Texts>(
    alloc: Global,
    facts: &'a Facts,
    texts: &'a T,
    entered: Labels<'a>,
    contract: &Contract,
    around: &[Tree],
) -> Result<List<Formula>, NoMemory>
    ensures { IfOk result (λ made. map formula_tree made ≡ spec.within_by (view_facts facts.now) (T.text texts.now) entered.entry (view_trees around.now) true (view_behavior contract.now.plain) ++ spec_claims.joined (spec.within_by (view_facts facts.now) (T.text texts.now) entered.entry (view_trees around.now) false) (map view_behavior contract.now.behaviors)) }
{
    let mut made = List::new(alloc);
    let plain = &contract.plain;
    push_within(alloc, facts, texts, entered, around, true, plain, &mut made)?;
    let behaviors = contract.behaviors.as_slice();
    push_all_within(alloc, facts, texts, entered, around, behaviors, &mut made)?;
    Ok(made)
}

// Some clause of the function that counts lies in this set.
fn within<'a, T: Texts>(
    alloc: Global,
    facts: &'a Facts,
    texts: &'a T,
    entered: Labels<'a>,
    contract: &Contract,
    around: &List<Tree>,
) -> Result<Formula, NoMemory>
    ensures { IfOk result (λ made. formula_tree made ≡ spec.within (view_facts facts.now) (T.text texts.now) entered.entry (view_contract contract.now) (view_trees around.now)) }
{
    let around = around.as_slice();
    let parts = all_within(alloc, facts, texts, entered, contract, around)?;
    Ok(any_of(parts))
}

// ---- sets of the caller

// In the set of a clause, where the behavior was assumed.
fn inclusion<'a, T: Texts>(
    alloc: Global,
    frame: Frame<'a>,
    texts: &'a T,
    level: usize,
    entered: Labels<'a>,
    contract: &Contract,
    is_plain: bool,
    behavior: &Behavior,
    around: &List<Tree>,
    state: &'a State,
) -> Result<Formula, NoMemory>
    ensures { (k : ℕ → Kind) → IfOk result (λ made. formula_tree made ≡ forces.under is_plain (fill (states (view_state state.now)) (assumed_tree (facts_in frame.entry) (shape_in frame.entry k) (T.text texts.now) (entry_reading (facts_in frame.entry) (shape_in frame.entry k) (T.text texts.now) level) (view_behavior behavior.now).assumes)) (spec.within (facts_in frame.entry) (T.text texts.now) entered.entry (view_contract contract.now) (view_trees around.now))) }
{
    let lies = within(alloc, frame.facts, texts, entered, contract, around)?;
    let made = claim_under(alloc, frame, texts, level, is_plain, behavior, lies, state)?;
    Ok(made)
}

fn push_inclusion<'a, T: Texts>(
    alloc: Global,
    frame: Frame<'a>,
    texts: &'a T,
    level: usize,
    entered: Labels<'a>,
    contract: &Contract,
    is_plain: bool,
    behavior: &Behavior,
    state: &'a State,
    made: &mut List<Formula>,
) -> Result<(), NoMemory>
    ensures { (k : ℕ → Kind) → OnOk result (map formula_tree made.new ≡ map formula_tree made.old ++ spec.inclusion_by (facts_in frame.entry) (T.text texts.now) entered.entry (view_contract contract.now) (λ (as_ : List acsl.Tree). fill (states (view_state state.now)) (assumed_tree (facts_in frame.entry) (shape_in frame.entry k) (T.text texts.now) (entry_reading (facts_in frame.entry) (shape_in frame.entry k) (T.text texts.now) level) as_)) is_plain (view_behavior behavior.now)) }
{
    let Some(around) = &behavior.assigns else {
        return Ok(());
    };
    let formula = inclusion(
        alloc, frame, texts, level, entered, contract, is_plain, behavior, around, state,
    )?;
    made.push(formula)?;
    Ok(())
}

fn push_inclusions<'a, T: Texts>(
    alloc: Global,
    frame: Frame<'a>,
    texts: &'a T,
    level: usize,
    entered: Labels<'a>,
    contract: &Contract,
    behaviors: &[Behavior],
    state: &'a State,
    made: &mut List<Formula>,
) -> Result<(), NoMemory>
    ensures { (k : ℕ → Kind) → OnOk result (map formula_tree made.new ≡ map formula_tree made.old ++ spec_claims.joined (spec.inclusion_by (facts_in frame.entry) (T.text texts.now) entered.entry (view_contract contract.now) (λ (as_ : List acsl.Tree). fill (states (view_state state.now)) (assumed_tree (facts_in frame.entry) (shape_in frame.entry k) (T.text texts.now) (entry_reading (facts_in frame.entry) (shape_in frame.entry k) (T.text texts.now) level) as_)) false) (map view_behavior behaviors.now)) }
{
    for behavior in behaviors {
        push_inclusion(
            alloc, frame, texts, level, entered, contract, false, behavior, state, made,
        )?;
    }
    Ok(())
}

// No set, or one that doesn't lie in this one.
fn lies_outside(around: &[Tree], assigns: &Option<List<Tree>>) -> bool
    ensures { result ≡ words.lies_outside (view_trees around.now) (option_map view_trees assigns.now) }
{
    match assigns {
        Some(regions) => !all_in(around, regions.as_slice()),
        None => true,
    }
}

fn is_unset(behavior: &Behavior) -> bool
    ensures { result ≡ words.is_unset (view_behavior behavior.now).assigns }
{
    match &behavior.assigns {
        Some(_) => false,
        None => true,
    }
}

fn are_unset(behaviors: &[Behavior]) -> bool
    ensures { result ≡ list_all (λ b. words.is_unset b.assigns) (map view_behavior behaviors.now) }
{
    for behavior in behaviors {
        if !is_unset(behavior) {
            return false;
        }
    }
    true
}

// No clause of the function that is called lies in this one, whatever its behaviors assume.
fn refuses(contract: &Contract, assigns: &Option<List<Tree>>) -> bool
    ensures { result ≡ words.refuses (view_contract contract.now) (option_map view_trees assigns.now) }
{
    match assigns {
        Some(around) => {
            lies_outside(around.as_slice(), &contract.plain.assigns)
                && are_unset(contract.behaviors.as_slice())
        }
        None => false,
    }
}

// In the sets of the function's clauses.
fn within_clauses<'a, T: Texts>(
    alloc: Global,
    frame: Frame<'a>,
    texts: &'a T,
    level: usize,
    entered: Labels<'a>,
    contract: &Contract,
    state: &'a State,
) -> Result<List<Formula>, NoMemory>
    ensures { (k : ℕ → Kind) → IfOk result (λ made. map formula_tree made ≡ spec.inclusions (facts_in frame.entry) (T.text texts.now) entered.entry (view_contract contract.now) (λ (as_ : List acsl.Tree). fill (states (view_state state.now)) (assumed_tree (facts_in frame.entry) (shape_in frame.entry k) (T.text texts.now) (entry_reading (facts_in frame.entry) (shape_in frame.entry k) (T.text texts.now) level) as_)) (view_contract frame.entry.contract.now) forces.of_function) }
{
    let mut made = List::new(alloc);
    let plain = &frame.contract.plain;
    push_inclusion(
        alloc, frame, texts, level, entered, contract, true, plain, state, &mut made,
    )?;
    let behaviors = frame.contract.behaviors.as_slice();
    push_inclusions(
        alloc, frame, texts, level, entered, contract, behaviors, state, &mut made,
    )?;
    let refused = refuses(contract, &plain.assigns);
    let one = as_one_unless(alloc, refused, made)?;
    Ok(one)
}

// In the set in force.
fn within_force<'a, T: Texts>(
    alloc: Global,
    frame: Frame<'a>,
    texts: &'a T,
    level: usize,
    force: Force<'a>,
    entered: Labels<'a>,
    contract: &Contract,
    state: &'a State,
) -> Result<List<Formula>, NoMemory>
    ensures { (k : ℕ → Kind) → IfOk result (λ made. map formula_tree made ≡ spec.inclusions (facts_in frame.entry) (T.text texts.now) entered.entry (view_contract contract.now) (λ (as_ : List acsl.Tree). fill (states (view_state state.now)) (assumed_tree (facts_in frame.entry) (shape_in frame.entry k) (T.text texts.now) (entry_reading (facts_in frame.entry) (shape_in frame.entry k) (T.text texts.now) level) as_)) (view_contract frame.entry.contract.now) (view_force force.entry)) }
{
    match force {
        Force::OfFunction => {
            let made = within_clauses(alloc, frame, texts, level, entered, contract, state)?;
            Ok(made)
        }
        Force::OfLoop(around, _) => {
            let mut made = List::new(alloc);
            made.push(within(alloc, frame.facts, texts, entered, contract, around)?)?;
            Ok(made)
        }
    }
}

// The clause outside of behaviors names nothing.
fn names_nothing(contract: &Contract) -> bool
    ensures { (fs : List qed.Tree) → spec.unless_empty (view_contract contract.now).plain.assigns fs ≡ (if result then [] else fs) }
{
    match &contract.plain.assigns {
        Some(regions) => regions.as_slice().is_empty(),
        None => false,
    }
}

/// What is asked of the sets of a function that is called; the caller was entered in the state of this level.
pub(crate) fn inclusions<'a, T: Texts>(
    alloc: Global,
    frame: Frame<'a>,
    texts: &'a T,
    level: usize,
    force: Force<'a>,
    entered: Labels<'a>,
    contract: &Contract,
    state: &'a State,
) -> Result<List<Formula>, NoMemory>
    ensures { (k : ℕ → Kind) → IfOk result (λ made. map formula_tree made ≡ spec.asked_inclusions (facts_in frame.entry) (T.text texts.now) entered.entry (view_contract contract.now) (λ (as_ : List acsl.Tree). fill (states (view_state state.now)) (assumed_tree (facts_in frame.entry) (shape_in frame.entry k) (T.text texts.now) (entry_reading (facts_in frame.entry) (shape_in frame.entry k) (T.text texts.now) level) as_)) (view_contract frame.entry.contract.now) (view_force force.entry)) }
{
    if names_nothing(contract) {
        return Ok(List::new(alloc));
    }
    let made = within_force(alloc, frame, texts, level, force, entered, contract, state)?;
    Ok(made)
}
