// Sums of many forms, by a table from atoms to coefficients.
ghost use Rattle.std.specs.Prelude.{◌≡◌, ◌+◌, ◌<◌, ◌&&◌, not, ◌++◌, [], pos, drop, length, slice_index_or, IfOk, OnOk};
ghost use Rattle.qed_linear.specs.declared.forms.LinPart.{LinPart};
ghost use Rattle.qed_terms.specs.Operators.{is_zero};
ghost use Rattle.qed_terms.specs.View.{term_tree};
ghost use Rattle.qed_linear.specs.Linear.{number, add, add_part, add_parts, cons_nonzero};
ghost use Rattle.qed_linear.specs.Totals.{total_parts, total_lin, times_in, is_before, are_ordered};
ghost use Rattle.qed_linear.specs.View.{lin_of, parts_of, signed, signed_parts, wide_value, wide_parts, wide_lin};

use crate::forms::{LinForm, LinPart};
use crate::keys::KeyedTerm;
use crate::sums::{WideForm, WidePart, push_wide, widen};
use crate::wide::Wide;
use qed_terms::Term;
use std::alloc::Global;
use std::cmp::Ordering;
use std::collections::BTreeMap;
use wp_base::NoMemory;

/// A sum of forms: the coefficient of each atom, and the constant.
#[derive(Drop)]
pub struct Total<'a> {
    pub parts: BTreeMap<KeyedTerm<'a>, Wide>,
    pub constant: Wide,
}

/// The sum of no forms.
pub fn no_total<'a>(alloc: Global) -> Total<'a>
    ensures { total_lin result ≡ number (pos 0) }
{
    Total {
        parts: BTreeMap::new(alloc),
        constant: Wide::of(0),
    }
}

// The coefficient so far.
fn times_of<'a>(parts: &BTreeMap<KeyedTerm<'a>, Wide>, key: KeyedTerm<'a>) -> Wide
    ensures { wide_value result ≡ times_in key.entry parts.now.entries }
{
    match parts.get(&key) {
        Some(times) => *times,
        None => Wide::of(0),
    }
}

// One part more.
fn add_part<'a>(
    parts: &mut BTreeMap<KeyedTerm<'a>, Wide>,
    atom: &'a Term,
    times: Wide,
) -> Result<(), NoMemory>
    ensures { OnOk result (total_parts parts.new.entries ≡ add_part (term_tree atom.now) (wide_value times) (total_parts parts.old.entries)) }
{
    let key = KeyedTerm { term: atom };
    let sum = times.plus(times_of(&*parts, key))?;
    match parts.insert(key, sum) {
        Ok(_) => Ok(()),
        Err(_) => Err(NoMemory),
    }
}

/// One form more, or a form times -1.
pub fn add_to_total<'a>(
    total: &mut Total<'a>,
    form: &'a LinForm,
    negative: bool,
) -> Result<(), NoMemory>
    ensures { OnOk result (total_lin total.new ≡ add (signed negative (lin_of form.now)) (total_lin total.old)) }
{
    add_parts(&mut total.parts, form.parts.as_slice(), negative)?;
    total.constant = widen(form.constant, negative).plus(total.constant)?;
    Ok(())
}

fn add_parts<'a>(
    total: &mut BTreeMap<KeyedTerm<'a>, Wide>,
    parts: &'a [LinPart],
    negative: bool,
) -> Result<(), NoMemory>
    ensures { OnOk result (total_parts total.new.entries ≡ add_parts (signed_parts negative (parts_of parts.now)) (total_parts total.old.entries)) }
{
    let mut left = parts.len();
    while left > 0 {
        left -= 1;
        let part = &parts[left];
        add_part(total, &part.atom, widen(part.times, negative))?;
    }
    Ok(())
}

// A part, where its coefficient isn't 0.
fn push_nonzero(
    alloc: Global,
    parts: &mut Vec<WidePart>,
    atom: &Term,
    times: Wide,
) -> Result<(), NoMemory>
    ensures { OnOk result (wide_parts parts.new.items ≡ wide_parts parts.old.items ++ cons_nonzero (term_tree atom.now) (wide_value times) []) }
{
    if times.is_zero() {
        return Ok(());
    }
    push_wide(parts, atom.copy(alloc)?, times)
}

/// The sum with atoms of its own.
pub fn summed(alloc: Global, total: &Total<'_>) -> Result<WideForm, NoMemory>
    ensures { IfOk result (λ sum. wide_lin sum ≡ total_lin total.now) }
{
    let mut parts = Vec::new(alloc);
    for (key, times) in total.parts.iter() {
        push_nonzero(alloc, &mut parts, key.term, *times)?;
    }
    Ok(WideForm {
        parts,
        constant: total.constant,
    })
}

// ---- parts in order

// Whether the part at this place stands before the one behind it, if there is one.
fn is_before(parts: &[LinPart], at: usize) -> bool
    requires { at < length parts.now }
    ensures { (p : LinPart) → p ≡ slice_index_or parts.now at p → result ≡ is_before (term_tree p.atom) (parts_of (drop (at + 1) parts.now)) }
{
    if at + 1 == parts.len() {
        return true;
    }
    parts[at].atom.compare(&parts[at + 1].atom) == Ordering::Less
}

fn is_zero(times: i128) -> bool
    ensures { result ≡ is_zero times }
{
    times == 0
}

// Whether the part at this place counts, and stands before the one behind it.
fn stands_well(parts: &[LinPart], at: usize) -> bool
    requires { at < length parts.now }
    ensures { (p : LinPart) → p ≡ slice_index_or parts.now at p → result ≡ (not (is_zero p.times) && is_before (term_tree p.atom) (parts_of (drop (at + 1) parts.now))) }
{
    let nothing = is_zero(parts[at].times);
    let before = is_before(parts, at);
    !nothing && before
}

/// Whether the atoms of parts are in order, each once, and no coefficient is 0.
#[tactic(auto, using(crate::proofs::TotalSteps::test_passed, crate::proofs::TotalSteps::test_failed))]
pub fn are_ordered(parts: &[LinPart]) -> bool
    ensures { result ≡ are_ordered (parts_of parts.now) }
{
    for at in 0..parts.len() {
        if !stands_well(parts, at) {
            return false;
        }
    }
    true
}
