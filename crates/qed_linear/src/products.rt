// Products: of any size of numbers of 128 bits, and of forms.
ghost use Rattle.std.specs.Prelude.{◌≡◌, ◌*ℤ◌, true, false, ℤ, pos, List, [], ◌∷◌, map, option_map, if◌then◌else◌, IfOk};
ghost use Rattle.qed_terms.specs.View.{term_tree};
ghost use Rattle.qed_linear.specs.Linear.{Lin, lin, part, is_number, number_product, other_factors, fitted, times_of, times_product, sorted_factors, product_tree, product_part, product_form};
ghost use Rattle.qed_linear.specs.View.{lin_of, sized, IsProduct, AreOthers};

use crate::forms::{LinForm, LinPart, number};
use crate::ordered::{sorted_factors, times_of};
use crate::sums::scaled;
use qed_terms::{Term, TermOp};
use std::alloc::Global;
use wp_base::{List, NoMemory};

// ---- products of numbers

/// A product by its sign and its size, or that its size is 2^128 or more.
#[derive(Clone, Copy)]
pub enum Product {
    Within(bool, u128),
    Beyond,
}

// The product with one factor more.
fn times(product: Product, by: i128) -> Product
    ensures { (z : ℤ) → IsProduct product z → IsProduct result (z *ℤ by) }
{
    match product {
        Product::Within(negative, size) => match size.checked_mul(by.unsigned_abs()) {
            Some(more) => {
                if by < 0 {
                    return Product::Within(!negative, more);
                }
                Product::Within(negative, more)
            }
            None => Product::Beyond,
        },
        Product::Beyond => {
            if by == 0 {
                return Product::Within(false, 0);
            }
            Product::Beyond
        }
    }
}

fn negative_of(size: u128) -> Option<i128>
    ensures { result ≡ fitted (sized true size) }
{
    if size < 0x8000_0000_0000_0000_0000_0000_0000_0000 {
        return Some(-(size as i128));
    }
    if size == 0x8000_0000_0000_0000_0000_0000_0000_0000 {
        return Some(i128::MIN);
    }
    None
}

fn positive_of(size: u128) -> Option<i128>
    ensures { result ≡ fitted (sized false size) }
{
    if size < 0x8000_0000_0000_0000_0000_0000_0000_0000 {
        return Some(size as i128);
    }
    None
}

// The number, where it fits 128 bits.
fn narrow(product: Product) -> Option<i128>
    ensures { (z : ℤ) → IsProduct product z → result ≡ fitted z }
{
    match product {
        Product::Within(true, size) => negative_of(size),
        Product::Within(false, size) => positive_of(size),
        Product::Beyond => None,
    }
}

fn with_number(product: Product, form: &LinForm) -> Product
    ensures { (z : ℤ) → IsProduct product z → IsProduct result (if is_number (lin_of form.now) then z *ℤ form.now.constant else z) }
{
    if form.parts.is_empty() {
        return times(product, form.constant);
    }
    product
}

// The numbers among the factors, multiplied, where that fits.
fn number_product(forms: &[LinForm]) -> Option<i128>
    ensures { result ≡ fitted (number_product (map lin_of forms.now)) }
{
    let mut product = Product::Within(false, 1);
    let mut left = forms.len();
    while left > 0 {
        left -= 1;
        product = with_number(product, &forms[left]);
    }
    narrow(product)
}

// ---- products of forms

/// The factors that aren't numbers: none, one, or more.
#[derive(Clone, Copy)]
pub enum Others<'a> {
    None,
    One(&'a LinForm),
    More,
}

fn with_factor<'a>(others: Others<'a>, form: &'a LinForm) -> Others<'a>
    ensures { (gs : List Lin) → AreOthers others.entry gs → AreOthers result (if is_number (lin_of form.now) then gs else lin_of form.now ∷ gs) }
{
    if form.parts.is_empty() {
        return others;
    }
    match others {
        Others::None => Others::One(form),
        Others::One(_) => Others::More,
        Others::More => Others::More,
    }
}

fn other_factors(forms: &[LinForm]) -> Others<'_>
    ensures { AreOthers result (other_factors (map lin_of forms.now)) }
{
    let mut others = Others::None;
    let mut left = forms.len();
    while left > 0 {
        left -= 1;
        others = with_factor(others, &forms[left]);
    }
    others
}

fn with_times(product: Product, form: &LinForm) -> Product
    ensures { (z : ℤ) → IsProduct product z → IsProduct result (if is_number (lin_of form.now) then z else z *ℤ times_of (lin_of form.now)) }
{
    if form.parts.is_empty() {
        return product;
    }
    times(product, times_of(form))
}

// The number before several factors, where it fits.
fn times_product(by: i128, forms: &[LinForm]) -> Option<i128>
    ensures { result ≡ fitted (times_product (other_factors (map lin_of forms.now)) *ℤ by) }
{
    let mut product = Product::Within(false, 1);
    let mut left = forms.len();
    while left > 0 {
        left -= 1;
        product = with_times(product, &forms[left]);
    }
    narrow(times(product, by))
}

// A number times the product of these.
#[tactic(auto, using(qed_terms::proofs::Equations::tree_laws))]
fn product_part(alloc: Global, times: i128, factors: Vec<Term>) -> Result<LinForm, NoMemory>
    ensures { IfOk result (λ form. lin_of form ≡ lin (part (product_tree (map term_tree factors.items)) times ∷ []) (pos 0)) }
{
    let atom = Term::Op(TermOp::Mul, List::from_vec(factors));
    let mut parts = Vec::new(alloc);
    parts.push(LinPart { atom, times })?;
    Ok(LinForm { parts, constant: 0 })
}

fn product_of_several(
    alloc: Global,
    by: i128,
    forms: &[LinForm],
) -> Result<Option<LinForm>, NoMemory>
    ensures { IfOk result (λ form. option_map lin_of form ≡ product_part (fitted (times_product (other_factors (map lin_of forms.now)) *ℤ by)) (sorted_factors (other_factors (map lin_of forms.now)))) }
{
    match times_product(by, forms) {
        Some(times) => {
            let factors = sorted_factors(alloc, forms)?;
            Ok(Some(product_part(alloc, times, factors)?))
        }
        None => Ok(None),
    }
}

/// The product of forms: a number, a multiple of a form, or of an atom that is the product of several; none where it doesn't fit.
#[tactic(auto, using(crate::proofs::Gathered::zero_of_many, crate::proofs::Gathered::part_of_many))]
pub fn product_form(alloc: Global, forms: &[LinForm]) -> Result<Option<LinForm>, NoMemory>
    ensures { IfOk result (λ form. option_map lin_of form ≡ product_form (map lin_of forms.now)) }
{
    match number_product(forms) {
        None => Ok(None),
        Some(times) => match other_factors(forms) {
            Others::None => Ok(Some(number(alloc, times))),
            Others::One(form) => scaled(alloc, times, form),
            Others::More => {
                if times == 0 {
                    return Ok(Some(number(alloc, 0)));
                }
                product_of_several(alloc, times, forms)
            }
        },
    }
}
