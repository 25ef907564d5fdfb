// Fresh names, and numbers of points that are passed.
ghost use Rattle.std.specs.Prelude.{◌≡◌, ◌<◌, [], false, suc, IfOk, OnOk};
ghost use Rattle.qed_terms.specs.Fresh.{fresh_name, none_used, use_one};
ghost use Rattle.qed_terms.specs.View.{term_tree};
ghost use Rattle.memory_steps.specs.World as spec;
ghost use Rattle.memory_worlds.specs.View.{used_by, view_base};

use itoa::Buffer;
use qed_terms::{Fresh, Sort, Term};
use std::alloc::Global;
use wp_base::{NoMemory, Str};

/// A name of a slot, by which it gets fresh ones, and whether it holds a memory.
#[derive(Drop)]
pub struct Base {
    pub name: Str,
    pub is_memory: bool,
}

/// The fresh names that were given, and how many points were passed.
#[derive(Drop)]
pub struct Names {
    pub fresh: Fresh,
    pub marks: u64,
}

/// The base name of numbers of blocks.
const COUNT: &[u8] = b"c";

// `#` and the number.
#[tactic(auto, using(crate::proofs::GivenNames::numbered_so))]
fn numbered(alloc: Global, number: u64) -> Result<Str, NoMemory>
    requires { 0 < number }
    ensures { IfOk result (λ name. name ≡ fresh_name [] number) }
{
    let mut buffer = Buffer::new();
    let mut name = Vec::new(alloc);
    name.push(b'#')?;
    name.extend_from_slice(buffer.format(number).as_bytes())?;
    Ok(Str::from_vec(name))
}

impl Names {
    #[tactic(auto, using(crate::proofs::GivenNames::none_yet))]
    pub fn new(alloc: Global) -> Names
        ensures { used_by result ≡ none_used }
    {
        Names {
            fresh: Fresh::new(alloc),
            marks: 0,
        }
    }

    /// The number of the next point. A count that is at its type's end answers `NoMemory`.
    #[tactic(auto, using(crate::proofs::GivenNames::mark_number, crate::proofs::GivenNames::mark_used))]
    pub fn mark(&mut self) -> Result<u64, NoMemory>
        ensures number { IfOk result (λ number. number ≡ suc (used_by self.old spec.mark_base)) }
        ensures used { OnOk result (used_by self.new ≡ use_one (used_by self.old) spec.mark_base) }
    {
        match self.marks.checked_add(1) {
            Some(number) => {
                self.marks = number;
                Ok(number)
            }
            None => Err(NoMemory),
        }
    }

    // The next fresh name of a base.
    #[tactic(auto, using(crate::proofs::GivenNames::empty_name, crate::proofs::GivenNames::empty_used, crate::proofs::GivenNames::next_name, crate::proofs::GivenNames::next_used))]
    fn next(&mut self, alloc: Global, base: &Str) -> Result<Str, NoMemory>
        ensures name { IfOk result (λ name. name ≡ fresh_name base.now (suc (used_by self.old base.now))) }
        ensures used { OnOk result (used_by self.new ≡ use_one (used_by self.old) base.now) }
    {
        if base.bytes().is_empty() {
            let number = self.mark()?;
            return numbered(alloc, number);
        }
        let name = self.fresh.name(base)?;
        Ok(name)
    }
}

/// The next fresh name of a base.
#[tactic(auto, using(qed_terms::proofs::Equations::tree_laws, crate::proofs::GivenNames::memory_named, crate::proofs::GivenNames::number_named))]
pub fn new_name(alloc: Global, names: &mut Names, base: &Base) -> Result<Term, NoMemory>
    ensures name { IfOk result (λ term. term_tree term ≡ spec.new_name (used_by names.old) (view_base base.now)) }
    ensures used { OnOk result (used_by names.new ≡ use_one (used_by names.old) base.now.name) }
{
    let name = names.next(alloc, &base.name)?;
    if base.is_memory {
        Ok(Term::Var(name, Sort::Memory))
    } else {
        Ok(Term::Var(name, Sort::Int))
    }
}

/// The next fresh name of a number.
pub fn number_name(alloc: Global, names: &mut Names, base: &[u8]) -> Result<Term, NoMemory>
    ensures name { IfOk result (λ term. term_tree term ≡ spec.name_for false (fresh_name base.now (suc (used_by names.old base.now)))) }
    ensures used { OnOk result (used_by names.new ≡ use_one (used_by names.old) base.now) }
{
    let base = Base {
        name: Str::from_bytes(alloc, base)?,
        is_memory: false,
    };
    new_name(alloc, names, &base)
}

/// The next fresh number of blocks.
pub fn count_name(alloc: Global, names: &mut Names) -> Result<Term, NoMemory>
    ensures name { IfOk result (λ term. term_tree term ≡ spec.new_name (used_by names.old) spec.count_base) }
    ensures used { OnOk result (used_by names.new ≡ use_one (used_by names.old) spec.count_base.name) }
{
    number_name(alloc, names, COUNT)
}
