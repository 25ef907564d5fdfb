// Base names, made.
ghost use Rattle.std.specs.Prelude.{◌≡◌, ◌<◌, ◌++◌, ◌∷◌, [], drop, map, take, IfOk, OnOk, ℕ, List};
ghost use Rattle.slot_names.specs.Bases as spec;

use itoa::Buffer;
use std::alloc::Global;
use wp_base::{List, NoMemory, Str};

// A name, with a byte before it where that is wanted.
fn marked(alloc: Global, is_hidden: bool, name: &Str) -> Result<Str, NoMemory>
    ensures { IfOk result (λ made. made ≡ spec.shown_as is_hidden name.now) }
{
    let mut bytes = Vec::new(alloc);
    if is_hidden {
        bytes.push(b'%')?;
    }
    bytes.extend_from_slice(name.bytes())?;
    Ok(Str::from_vec(bytes))
}

fn flag_name(alloc: Global, name: &Str) -> Result<Str, NoMemory>
    ensures { IfOk result (λ made. made ≡ spec.flag_name name.now) }
{
    let mut bytes = Vec::from_slice(alloc, name.bytes())?;
    bytes.extend_from_slice(b":i")?;
    Ok(Str::from_vec(bytes))
}

fn is_among(name: &Str, names: &[Str]) -> bool
    ensures { result ≡ spec.is_among name.now names.now }
{
    names.iter().any(|other| name.bytes() == other.bytes())
}

// A variable's two names.
fn push_pair(alloc: Global, name: Str, bases: &mut Vec<Str>) -> Result<(), NoMemory>
    ensures { OnOk result (bases.new.items ≡ bases.old.items ++ spec.pairs_of (name ∷ [])) }
{
    let flag = flag_name(alloc, &name)?;
    bases.push(name)?;
    bases.push(flag)?;
    Ok(())
}

// The names of the variables of the file.
#[tactic(auto, using(crate::proofs::Pairs::pair_next, crate::proofs::Pairs::pair_all))]
fn push_file(alloc: Global, file: &[Str], bases: &mut Vec<Str>) -> Result<(), NoMemory>
    ensures { OnOk result (bases.new.items ≡ bases.old.items ++ spec.pairs_of file.now) }
{
    for name in file {
        push_pair(alloc, name.copy(alloc)?, bases)?;
    }
    Ok(())
}

// The name of a variable of the function, of which so many are parameters yet.
fn own_name(alloc: Global, file: &[Str], params: usize, name: &Str) -> Result<Str, NoMemory>
    ensures { IfOk result (λ made. made ≡ spec.own_name file.now params name.now) }
{
    let is_hidden = params > 0 && is_among(name, file);
    let made = marked(alloc, is_hidden, name)?;
    Ok(made)
}

// Those of the variables of the function.
#[tactic(auto, using(crate::proofs::Pairs::own_next, crate::proofs::Pairs::own_all))]
fn push_own(
    alloc: Global,
    file: &[Str],
    params: usize,
    own: &[Str],
    bases: &mut Vec<Str>,
) -> Result<(), NoMemory>
    ensures { OnOk result (bases.new.items ≡ bases.old.items ++ spec.pairs_of (spec.own_names file.now params own.now)) }
{
    let mut left = params;
    for name in own {
        push_pair(alloc, own_name(alloc, file, left, name)?, bases)?;
        left = left.saturating_sub(1);
    }
    Ok(())
}

fn temporary_name(alloc: Global, number: usize) -> Result<Str, NoMemory>
    requires { 0 < number }
    ensures { IfOk result (λ made. made ≡ spec.temporary_name number) }
{
    let mut buffer = Buffer::new();
    let mut bytes = Vec::new(alloc);
    bytes.push(b'%')?;
    bytes.extend_from_slice(buffer.format(number).as_bytes())?;
    Ok(Str::from_vec(bytes))
}

// Those of what stands behind the variables.
#[tactic(auto, using(crate::proofs::Pairs::temporary_next, crate::proofs::Pairs::temporary_all))]
fn push_temporaries(alloc: Global, count: usize, bases: &mut Vec<Str>) -> Result<(), NoMemory>
    ensures { OnOk result (bases.new.items ≡ bases.old.items ++ spec.temporary_names 1 count) }
{
    for number in 0..count {
        bases.push(temporary_name(alloc, number + 1)?)?;
    }
    Ok(())
}

/// The base names of the slots of a function: of the variables of the file and of its own variables, the first of which are its parameters, two each; and
/// those of what it gives, of what a call gives, and of its temporaries.
pub fn slot_bases(
    alloc: Global,
    file: &[Str],
    params: usize,
    own: &[Str],
    temporaries: usize,
) -> Result<List<Str>, NoMemory>
    ensures { IfOk result (λ made. made ≡ spec.slot_bases file.now params own.now temporaries) }
{
    let mut bases = Vec::new(alloc);
    push_file(alloc, file, &mut bases)?;
    push_own(alloc, file, params, own, &mut bases)?;
    bases.push(Str::from_bytes(alloc, b"\\result")?)?;
    bases.push(Str::from_bytes(alloc, b"%")?)?;
    push_temporaries(alloc, temporaries, &mut bases)?;
    Ok(List::from_vec(bases))
}
