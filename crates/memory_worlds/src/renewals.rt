// Slots that change: fresh names, and what is known of them.
ghost use Rattle.std.specs.Prelude.{◌≡◌, ◌++◌, ◌∷◌, [], List, map, IfOk, OnOk};
ghost use Rattle.qed_terms.specs.Tree.{at_most, less, node, num, trees_of};
ghost use Rattle.qed_terms.specs.View.{formula_tree, term_tree};
ghost use Rattle.qed_terms.specs.declared.head.Head.TheVariants as head;
ghost use Rattle.memory_steps.specs.Forms.{Slots};
ghost use Rattle.memory_steps.specs.World.{count_of, pick, after_pick, after_picks, or_own, chosen};
ghost use Rattle.memory_steps.specs.Renew as spec;
ghost use Rattle.memory_worlds.specs.Changes.{fact_tree, present_table, view_change};
ghost use Rattle.memory_worlds.specs.View.{used_by, view_base, view_world};

use crate::names::{Base, Names, new_name};
use crate::terms;
use crate::terms::add_order;
use crate::worlds::World;
use qed_terms::{FormOp, Formula, Term};
use std::alloc::Global;
use wp_base::{List, NoMemory};

/// A fact on a new value.
#[derive(Drop)]
pub enum Fact {
    /// A relation of terms: those before the value, the value, and those behind it.
    Relation(FormOp, List<Term>, List<Term>),
    /// A formula in which the value doesn't stand.
    Fixed(Formula),
}

/// How a slot changes.
#[derive(Drop)]
pub enum Change {
    Keeps,
    Any,
    /// From this number on.
    From(i128),
    /// From the first one to the last one.
    Ranged(i128, i128),
    /// A block that was made, or block 0: where a pointer leads to.
    Block,
    /// A flag: what was set stays so.
    Raised,
    /// A value of which these are so.
    Facts(List<Fact>),
}

// ---- facts

// Copies of terms behind those that are there.
#[tactic(auto, using(crate::proofs::Pushing::copied_more, crate::proofs::Pushing::copied_all))]
fn extend(alloc: Global, terms: &[Term], kids: &mut Vec<Term>) -> Result<(), NoMemory>
    ensures { OnOk result (kids.new.items ≡ kids.old.items ++ terms.now) }
{
    for at in 0..terms.len() {
        kids.push(terms[at].copy(alloc)?)?;
    }
    Ok(())
}

// A relation over these terms, with one between them.
#[tactic(auto, using(qed_terms::proofs::Equations::tree_laws))]
fn relation(
    alloc: Global,
    op: &FormOp,
    before: &[Term],
    new: &Term,
    behind: &[Term],
) -> Result<Formula, NoMemory>
    ensures { IfOk result (λ formula. formula_tree formula ≡ node (head.Form op.now) (trees_of (map term_tree before.now ++ term_tree new.now ∷ map term_tree behind.now))) }
{
    let mut kids = Vec::new(alloc);
    extend(alloc, before, &mut kids)?;
    kids.push(new.copy(alloc)?)?;
    extend(alloc, behind, &mut kids)?;
    let op = op.copy(alloc)?;
    Ok(Formula::Rel(op, List::from_vec(kids)))
}

fn fact_of(alloc: Global, fact: &Fact, new: &Term) -> Result<Formula, NoMemory>
    ensures { IfOk result (λ formula. formula_tree formula ≡ fact_tree fact.now (term_tree new.now)) }
{
    match fact {
        Fact::Relation(op, before, behind) => {
            relation(alloc, op, before.as_slice(), new, behind.as_slice())
        }
        Fact::Fixed(formula) => formula.copy(alloc),
    }
}

// These facts are known of the new value.
fn add_given(
    alloc: Global,
    facts: &[Fact],
    new: &Term,
    known: &mut Vec<Formula>,
) -> Result<(), NoMemory>
    ensures { OnOk result (map formula_tree known.new.items ≡ map formula_tree known.old.items ++ map (λ f. fact_tree f (term_tree new.now)) facts.now) }
{
    for fact in facts {
        known.push(fact_of(alloc, fact, new)?)?;
    }
    Ok(())
}

// It is at least this number.
fn add_low(alloc: Global, low: i128, new: &Term, known: &mut Vec<Formula>) -> Result<(), NoMemory>
    ensures { OnOk result (map formula_tree known.new.items ≡ map formula_tree known.old.items ++ at_most (num low) (term_tree new.now) ∷ []) }
{
    add_order(alloc, Term::number(low), new.copy(alloc)?, known)
}

// It is at most this number.
fn add_high(alloc: Global, new: &Term, high: i128, known: &mut Vec<Formula>) -> Result<(), NoMemory>
    ensures { OnOk result (map formula_tree known.new.items ≡ map formula_tree known.old.items ++ at_most (term_tree new.now) (num high) ∷ []) }
{
    add_order(alloc, new.copy(alloc)?, Term::number(high), known)
}

// It is below the number of blocks.
#[tactic(auto, using(crate::proofs::Pushing::map_push))]
fn add_block(
    alloc: Global,
    new: &Term,
    table: &Term,
    known: &mut Vec<Formula>,
) -> Result<(), NoMemory>
    ensures { OnOk result (map formula_tree known.new.items ≡ map formula_tree known.old.items ++ less (term_tree new.now) (count_of (term_tree table.now)) ∷ []) }
{
    let count = terms::count_of(alloc, table.copy(alloc)?)?;
    known.push(Formula::relation(alloc, FormOp::Less, new.copy(alloc)?, count)?)?;
    Ok(())
}

// What is known of a new value; the table is the present one.
#[tactic(auto, using(crate::proofs::Pushing::then_two, crate::proofs::Pushing::then_three, crate::proofs::Renewed::block_facts, crate::proofs::Renewed::given_facts))]
fn add_facts(
    alloc: Global,
    change: &Change,
    table: &Term,
    new: &Term,
    old: &Term,
    known: &mut Vec<Formula>,
) -> Result<(), NoMemory>
    ensures { (ss : List Slots) → present_table ss ≡ term_tree table.now → OnOk result (map formula_tree known.new.items ≡ map formula_tree known.old.items ++ spec.facts_of ss (view_change change.now) (term_tree new.now) (term_tree old.now)) }
{
    match change {
        Change::Keeps => Ok(()),
        Change::Any => Ok(()),
        Change::From(low) => add_low(alloc, *low, new, known),
        Change::Ranged(low, high) => {
            add_low(alloc, *low, new, known)?;
            add_high(alloc, new, *high, known)
        }
        Change::Block => {
            add_low(alloc, 0, new, known)?;
            add_block(alloc, new, table, known)
        }
        Change::Raised => {
            add_low(alloc, 0, new, known)?;
            add_high(alloc, new, 1, known)?;
            add_order(alloc, old.copy(alloc)?, new.copy(alloc)?, known)
        }
        Change::Facts(facts) => add_given(alloc, facts.as_slice(), new, known),
    }
}

// ---- slots

// Whether it takes a fresh name.
fn is_renewed(change: &Change, term: &Term) -> bool
    ensures { result ≡ spec.is_renewed (view_change change.now) (term_tree term.now) }
{
    match change {
        Change::Keeps => false,
        Change::Any => true,
        Change::From(_) => true,
        Change::Ranged(_, _) => true,
        Change::Block => true,
        Change::Raised => !term.is_same(&Term::number(1)),
        Change::Facts(_) => true,
    }
}

// A slot changes.
fn renew_one(
    alloc: Global,
    names: &mut Names,
    base: &Base,
    change: &Change,
    table: &Term,
    term: &mut Term,
    known: &mut Vec<Formula>,
) -> Result<(), NoMemory>
    ensures term { let p = pick (used_by names.old) (view_base base.now) (spec.is_renewed (view_change change.now) (term_tree term.old)) in OnOk result (term_tree term.new ≡ or_own p (term_tree term.old)) }
    ensures known { (ss : List Slots) → present_table ss ≡ term_tree table.now → let p = pick (used_by names.old) (view_base base.now) (spec.is_renewed (view_change change.now) (term_tree term.old)) in OnOk result (map formula_tree known.new.items ≡ map formula_tree known.old.items ++ spec.facts_if ss (view_change change.now) p (term_tree term.old)) }
    ensures used { let p = pick (used_by names.old) (view_base base.now) (spec.is_renewed (view_change change.now) (term_tree term.old)) in OnOk result (used_by names.new ≡ after_pick (used_by names.old) (view_base base.now) p) }
{
    if !is_renewed(change, term) {
        return Ok(());
    }
    let name = new_name(alloc, names, base)?;
    add_facts(alloc, change, table, &name, term, known)?;
    *term = name;
    Ok(())
}

// The slots in order; those without a change stay.
fn renew_all(
    alloc: Global,
    names: &mut Names,
    bases: &[Base],
    changes: &[Change],
    table: &Term,
    terms: &mut Vec<Term>,
    known: &mut Vec<Formula>,
) -> Result<(), NoMemory>
    ensures terms { let ps = spec.renewals (map view_base bases.now) (used_by names.old) (map view_change changes.now) (map term_tree terms.old.items) in OnOk result (map term_tree terms.new.items ≡ chosen ps (map term_tree terms.old.items)) }
    ensures known { (ss : List Slots) → present_table ss ≡ term_tree table.now → let ps = spec.renewals (map view_base bases.now) (used_by names.old) (map view_change changes.now) (map term_tree terms.old.items) in OnOk result (map formula_tree known.new.items ≡ map formula_tree known.old.items ++ spec.facts ss (map view_change changes.now) ps (map term_tree terms.old.items)) }
    ensures used { let ps = spec.renewals (map view_base bases.now) (used_by names.old) (map view_change changes.now) (map term_tree terms.old.items) in OnOk result (used_by names.new ≡ after_picks (map view_base bases.now) ps (used_by names.old)) }
{
    let count = bases.len().min(changes.len().min(terms.len()));
    for at in 0..count {
        renew_one(
            alloc,
            names,
            &bases[at],
            &changes[at],
            table,
            &mut terms[at],
            known,
        )?;
    }
    Ok(())
}

/// The slots change, all at once.
#[tactic(auto, using(crate::proofs::Renewed::renewed_so))]
pub fn renew(
    alloc: Global,
    names: &mut Names,
    bases: &[Base],
    changes: &[Change],
    world: &mut World,
) -> Result<(), NoMemory>
    ensures world { (olds : List Slots) → OnOk result (view_world world.new ≡ spec.renewed (map view_base bases.now) olds (used_by names.old) (map view_change changes.now) (view_world world.old)) }
    ensures used { OnOk result (used_by names.new ≡ spec.used_by_renewed (map view_base bases.now) (used_by names.old) (map view_change changes.now) (view_world world.old)) }
{
    renew_all(
        alloc,
        names,
        bases,
        changes,
        &world.slots.table,
        &mut world.slots.terms,
        &mut world.known,
    )?;
    Ok(())
}
