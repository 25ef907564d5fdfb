// Whether names are fit to be bases.
ghost use Rattle.std.specs.Prelude.{◌≡◌, take, IfOk};
ghost use Rattle.std.specs.List.{list_all};
ghost use Rattle.qed_terms.specs.Names.{is_digit, is_letter};
ghost use Rattle.slot_names.specs.Bases as spec;

use name_table::Table;
use std::alloc::Global;
use wp_base::{NoMemory, Str};

fn is_c_byte(byte: u8) -> bool
    ensures { result ≡ spec.is_c_byte byte }
{
    matches!(byte, b'a'..=b'z' | b'A'..=b'Z' | b'0'..=b'9' | b'_')
}

fn is_digit_byte(byte: u8) -> bool
    ensures { result ≡ is_digit byte }
{
    matches!(byte, b'0'..=b'9')
}

fn begins_well(bytes: &[u8]) -> bool
    ensures { result ≡ spec.begins_well bytes.now }
{
    match bytes.split_first() {
        None => false,
        Some((first, _)) => !is_digit_byte(*first),
    }
}

fn are_c_bytes(bytes: &[u8]) -> bool
    ensures { result ≡ list_all spec.is_c_byte bytes.now }
{
    bytes.iter().all(|byte| is_c_byte(*byte))
}

fn is_c_name(name: &Str) -> bool
    ensures { result ≡ spec.is_c_name name.now }
{
    let bytes = name.bytes();
    begins_well(bytes) && are_c_bytes(bytes)
}

fn are_c_names(names: &[Str]) -> bool
    ensures { result ≡ list_all spec.is_c_name names.now }
{
    names.iter().all(|name| is_c_name(name))
}

// Whether the first ones differ.
#[tactic(auto, using(crate::proofs::Differing::differ_laws))]
fn differ(alloc: Global, names: &[Str], count: usize) -> Result<bool, NoMemory>
    ensures { IfOk result (λ so. so ≡ spec.differ (take count names.now)) }
{
    let mut table = Table::new(alloc);
    for at in 0..count.min(names.len()) {
        if !table.declare(alloc, &names[at], true)? {
            return Ok(false);
        }
    }
    Ok(true)
}

/// Whether all are names of C, of which those of the file differ, and those of the parameters, which come first among the function's own.
pub fn are_fit(alloc: Global, file: &[Str], params: usize, own: &[Str]) -> Result<bool, NoMemory>
    ensures { IfOk result (λ so. so ≡ spec.are_fit file.now params own.now) }
{
    if !are_c_names(file) || !are_c_names(own) {
        return Ok(false);
    }
    Ok(differ(alloc, file, file.len())? && differ(alloc, own, params)?)
}
