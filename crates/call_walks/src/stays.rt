// What stays by the behaviors of a function that is called (ACSL 2.3.2).
ghost use Rattle.std.specs.Prelude.{◌≡◌, ◌++◌, map, IfOk, OnOk};
ghost use Rattle.std.specs.Option.{option_map};
ghost use Rattle.acsl_trees.specs.Tree.{view_trees};
ghost use Rattle.c_runs.specs.Program as program;
ghost use Rattle.call_walks.specs.Claimed as spec;
ghost use Rattle.call_words.specs.Sets.{may_differ as may_differ_by};
ghost use Rattle.plain_states.specs.Slots as slots;
ghost use Rattle.program_trees.specs.View.{view_behavior, view_contract, view_facts};
ghost use Rattle.qed_terms.specs.Tree.{equal, imp_of};
ghost use Rattle.qed_terms.specs.View.{formula_tree, term_tree};
ghost use Rattle.value_words.specs.OverSlots.{slot_term};
ghost use Rattle.walk_frames.specs.Labelled.{assumed_in as assumed_over};

use acsl_trees::Tree;
use program_trees::{Behavior, Contract, Facts};
use qed_terms::{FormOp, Formula, Term};
use std::alloc::Global;
use typed_prog::Variable;
use value_words::{read_slot, value_slot};
use walk_frames::{Labels, Texts, assumed_in, lacks};
use wp_base::{List, NoMemory};

/// A variable of the file may differ behind a call, by the clause outside of behaviors.
pub(crate) fn may_differ(contract: &Contract, variable: u32) -> bool
    ensures { result ≡ may_differ_by (view_contract contract.now) variable }
{
    !lacks(&contract.plain.assigns, Variable::Global(variable))
}

// A slot holds now what it did before.
fn same_in(alloc: Global, now: &[Term], before: &[Term], slot: usize) -> Result<Formula, NoMemory>
    ensures { IfOk result (λ made. formula_tree made ≡ equal (slot_term (map term_tree now.now) slot) (slot_term (map term_tree before.now) slot)) }
{
    let present = read_slot(alloc, now, slot)?;
    let past = read_slot(alloc, before, slot)?;
    Formula::relation(alloc, FormOp::Equal, present, past)
}

// A variable of the file holds now what it did before, where this is assumed.
fn stay(
    alloc: Global,
    now: &[Term],
    before: &[Term],
    assumed: &Formula,
    variable: u32,
) -> Result<Formula, NoMemory>
    ensures { IfOk result (λ made. formula_tree made ≡ imp_of (formula_tree assumed.now) (equal (slot_term (map term_tree now.now) (slots.value_slot variable)) (slot_term (map term_tree before.now) (slots.value_slot variable)))) }
{
    let same = same_in(alloc, now, before, value_slot(variable as usize)?)?;
    Formula::implication(alloc, assumed.copy(alloc)?, same)
}

// A variable that may differ, and that the behavior doesn't name.
fn push_stay(
    alloc: Global,
    contract: &Contract,
    now: &[Term],
    before: &[Term],
    assumed: &Formula,
    assigns: &Option<List<Tree>>,
    variable: u32,
    made: &mut List<Formula>,
) -> Result<(), NoMemory>
    ensures { OnOk result (map formula_tree made.new ≡ map formula_tree made.old ++ spec.stay_in (map term_tree now.now) (map term_tree before.now) (may_differ_by (view_contract contract.now)) (formula_tree assumed.now) (option_map view_trees assigns.now) variable) }
{
    let stays = may_differ(contract, variable) && lacks(assigns, Variable::Global(variable));
    if stays {
        made.push(stay(alloc, now, before, assumed, variable)?)?;
    }
    Ok(())
}

// The variables of the file, in order.
#[tactic(auto, using(crate::proofs::Turns::stays_turn, crate::proofs::Turns::stays_end))]
fn push_stays(
    alloc: Global,
    facts: &Facts,
    contract: &Contract,
    now: &[Term],
    before: &[Term],
    assumed: &Formula,
    behavior: &Behavior,
    made: &mut List<Formula>,
) -> Result<(), NoMemory>
    ensures { OnOk result (map formula_tree made.new ≡ map formula_tree made.old ++ spec.stays_in (map term_tree now.now) (map term_tree before.now) (may_differ_by (view_contract contract.now)) (formula_tree assumed.now) (view_behavior behavior.now).assigns 0 (view_facts facts.now).globals) }
{
    let Ok(count) = u32::try_from(facts.globals.len()) else {
        return Err(NoMemory);
    };
    for variable in 0..count {
        push_stay(
            alloc,
            contract,
            now,
            before,
            assumed,
            &behavior.assigns,
            variable,
            made,
        )?;
    }
    Ok(())
}

// By a behavior, where it is assumed.
fn push_behavior<'a, T: Texts>(
    alloc: Global,
    facts: &'a Facts,
    texts: &'a T,
    entered: Labels<'a>,
    contract: &Contract,
    now: &[Term],
    before: &[Term],
    behavior: &Behavior,
    made: &mut List<Formula>,
) -> Result<(), NoMemory>
    ensures { OnOk result (map formula_tree made.new ≡ map formula_tree made.old ++ spec.stays_in (map term_tree now.now) (map term_tree before.now) (may_differ_by (view_contract contract.now)) (assumed_over (view_facts facts.now) (T.text texts.now) entered.entry (view_behavior behavior.now).assumes) (view_behavior behavior.now).assigns 0 (view_facts facts.now).globals) }
{
    let assumed = assumed_in(alloc, facts, texts, entered, behavior.assumes.as_slice())?;
    push_stays(
        alloc, facts, contract, now, before, &assumed, behavior, made,
    )?;
    Ok(())
}

// By each of these behaviors.
fn push_all_stays<'a, T: Texts>(
    alloc: Global,
    facts: &'a Facts,
    texts: &'a T,
    entered: Labels<'a>,
    contract: &Contract,
    now: &[Term],
    before: &[Term],
    behaviors: &[Behavior],
    made: &mut List<Formula>,
) -> Result<(), NoMemory>
    ensures { OnOk result (map formula_tree made.new ≡ map formula_tree made.old ++ spec.all_stay_in (map term_tree now.now) (map term_tree before.now) (may_differ_by (view_contract contract.now)) (λ (b : program.Behavior). assumed_over (view_facts facts.now) (T.text texts.now) entered.entry b.assumes) (view_facts facts.now).globals (map view_behavior behaviors.now)) }
{
    for behavior in behaviors {
        push_behavior(
            alloc, facts, texts, entered, contract, now, before, behavior, made,
        )?;
    }
    Ok(())
}

/// What stays behind a call, by each behavior.
pub(crate) fn stays<'a, T: Texts>(
    alloc: Global,
    facts: &'a Facts,
    texts: &'a T,
    entered: Labels<'a>,
    contract: &Contract,
    now: &[Term],
    before: &[Term],
) -> Result<List<Formula>, NoMemory>
    ensures { IfOk result (λ made. map formula_tree made ≡ spec.all_stay_in (map term_tree now.now) (map term_tree before.now) (may_differ_by (view_contract contract.now)) (λ (b : program.Behavior). assumed_over (view_facts facts.now) (T.text texts.now) entered.entry b.assumes) (view_facts facts.now).globals (view_contract contract.now).behaviors) }
{
    let mut made = List::new(alloc);
    let behaviors = contract.behaviors.as_slice();
    push_all_stays(
        alloc, facts, texts, entered, contract, now, before, behaviors, &mut made,
    )?;
    Ok(made)
}
