// Terms that differ by a number, and addresses that do.
ghost use Rattle.std.specs.Prelude.{◌≡◌, option_map, IfOk};
ghost use Rattle.qed_terms.specs.View.{term_tree};
ghost use Rattle.qed_linear.specs.Linear.{to_lin};
ghost use Rattle.qed_linear.specs.View.{lin_of};
ghost use Rattle.qed_memories.specs.Memories.{number_where, difference, is_zero_where, is_address, is_from_zero, is_up_to_zero};

use qed_linear::{LinForm, form_of, subtract};
use qed_terms::Term;
use std::alloc::Global;
use wp_base::NoMemory;

fn number_where(form: Option<LinForm>) -> Option<i128>
    ensures { result ≡ number_where (option_map lin_of form) }
{
    match form {
        Some(form) => {
            if form.parts.is_empty() {
                return Some(form.constant);
            }
            None
        }
        None => None,
    }
}

/// How much more the one form is than the other, where that is a number of 128 bits.
#[tactic(auto, unfolding(crate::specs::Memories::difference))]
pub fn difference(alloc: Global, form: &LinForm, less: &LinForm) -> Result<Option<i128>, NoMemory>
    ensures { IfOk result (λ number. number ≡ difference (lin_of form.now) (lin_of less.now)) }
{
    Ok(number_where(subtract(alloc, form, less)?))
}

/// How much more a form is than a term.
pub fn apart(alloc: Global, form: &LinForm, less: &Term) -> Result<Option<i128>, NoMemory>
    ensures { IfOk result (λ number. number ≡ difference (lin_of form.now) (to_lin (term_tree less.now))) }
{
    let less = form_of(alloc, less)?;
    difference(alloc, form, &less)
}

/// Whether the number is 0.
pub fn is_zero_where(number: Option<i128>) -> Option<bool>
    ensures { result ≡ is_zero_where number }
{
    match number {
        Some(number) => Some(number == 0),
        None => None,
    }
}

/// Whether there is a number, from 0 up.
pub fn is_from_zero(number: Option<i128>) -> bool
    ensures { result ≡ is_from_zero number }
{
    match number {
        Some(number) => 0 <= number,
        None => false,
    }
}

/// Whether there is a number, from 0 down.
pub fn is_up_to_zero(number: Option<i128>) -> bool
    ensures { result ≡ is_up_to_zero number }
{
    match number {
        Some(number) => number <= 0,
        None => false,
    }
}

/// Whether two addresses are the same, where that is known: the one by the forms of its block and its offset, the other by its terms.
#[tactic(auto, unfolding(crate::specs::Memories::is_address))]
pub fn is_address(
    alloc: Global,
    block: &LinForm,
    offset: &LinForm,
    at_block: &Term,
    at_offset: &Term,
) -> Result<Option<bool>, NoMemory>
    ensures { IfOk result (λ known. known ≡ is_address (lin_of block.now) (lin_of offset.now) (term_tree at_block.now) (term_tree at_offset.now)) }
{
    match is_zero_where(apart(alloc, block, at_block)?) {
        None => Ok(None),
        Some(false) => Ok(Some(false)),
        Some(true) => Ok(is_zero_where(apart(alloc, offset, at_offset)?)),
    }
}
