// Numbers of heads: one head, one number.
ghost use Rattle.std.specs.Prelude.{◌≡◌, ◌⊎◌, Some, None, OnOk, IfOk};
ghost use Rattle.qed_terms.specs.declared.head.Head.{Head};
ghost use Rattle.tree_places.specs.Heads.{number_in, AreHeads, KeepsNumbers};
ghost use Rattle.tree_places.specs.View.{numbers_of, are_kept};

use qed_terms::Head;
use std::alloc::Global;
use std::collections::HashMap;
use wp_base::NoMemory;

/// Numbers of heads, and how many there are.
#[derive(Drop)]
pub struct Heads {
    pub numbers: HashMap<Head, usize>,
    pub count: usize,
}

#[tactic(auto, unfolding(crate::specs::Heads::number_in))]
fn number_at(numbers: &HashMap<Head, usize>, head: &Head) -> Option<usize>
    ensures { result ≡ number_in numbers.now.entries head.now }
{
    numbers.get(head).copied()
}

#[tactic(auto, unfolding(crate::specs::Heads::number_in))]
fn note(numbers: &mut HashMap<Head, usize>, head: Head, number: usize) -> Result<(), NoMemory>
    ensures new { OnOk result (number_in numbers.new.entries head ≡ Some number) }
    ensures others { OnOk result ((g : Head) → (g ≡ head) ⊎ (number_in numbers.new.entries g ≡ number_in numbers.old.entries g)) }
{
    numbers.insert(head, number)?;
    Ok(())
}

/// A number for a head that has none.
fn add(heads: &mut Heads, head: Head) -> Result<usize, NoMemory>
    requires none { numbers_of heads.old head ≡ None }
    requires kept { are_kept heads.old }
    ensures kept { OnOk result (are_kept heads.new) }
    ensures older { OnOk result (KeepsNumbers (numbers_of heads.old) (numbers_of heads.new)) }
    ensures number { IfOk result (λ n. numbers_of heads.new head ≡ Some n) }
{
    let number = heads.count;
    let Some(count) = number.checked_add(1) else {
        return Err(NoMemory)
    };
    note(&mut heads.numbers, head, number)?;
    heads.count = count;
    Ok(number)
}

/// The number of a head: a new one where it has none.
pub fn number_of(alloc: Global, heads: &mut Heads, head: &Head) -> Result<usize, NoMemory>
    requires { are_kept heads.old }
    ensures kept { OnOk result (are_kept heads.new) }
    ensures older { OnOk result (KeepsNumbers (numbers_of heads.old) (numbers_of heads.new)) }
    ensures number { IfOk result (λ n. numbers_of heads.new head.now ≡ Some n) }
{
    match number_at(&heads.numbers, head) {
        Some(number) => Ok(number),
        None => {
            let copy = head.copy(alloc)?;
            let number = add(heads, copy)?;
            Ok(number)
        }
    }
}
