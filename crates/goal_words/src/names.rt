// Names, and which of them are names of memories.
ghost use Rattle.std.specs.Prelude.{◌≡◌};
ghost use Rattle.std.specs.List.{list_all, list_any};
ghost use Rattle.std.specs.Str.{bytes_eq};
ghost use Rattle.qed_terms.specs.Names as names;
ghost use Rattle.goal_words.specs.Names as spec;
ghost use Rattle.goal_words.specs.Views.{FindsWord};

use crate::bytes::part;
use crate::kinds::kind_of;
use qed_terms::Sort;

fn is_name_byte(byte: u8) -> bool
    ensures { result ≡ names.is_name_byte byte }
{
    byte.is_ascii_alphabetic()
        || byte.is_ascii_digit()
        || matches!(byte, b'_' | b'\\' | b'%' | b':' | b'#' | b'!')
}

fn are_name_bytes(bytes: &[u8]) -> bool
    ensures { result ≡ list_all names.is_name_byte bytes.now }
{
    bytes.iter().all(|b| is_name_byte(*b))
}

fn are_digits(bytes: &[u8]) -> bool
    ensures { result ≡ list_all names.is_digit bytes.now }
{
    bytes.iter().all(|b| b.is_ascii_digit())
}

/// Whether this is a name.
#[tactic(auto, unfolding(qed_terms::specs::Names::is_name))]
pub fn is_name(bytes: &[u8]) -> bool
    ensures { result ≡ names.is_name bytes.now }
{
    match bytes {
        [] => false,
        [first, ..] => !first.is_ascii_digit() && are_name_bytes(bytes),
    }
}

fn is_numeral(bytes: &[u8]) -> bool
    ensures { result ≡ names.is_numeral bytes.now }
{
    match bytes {
        [] => false,
        [only] => only.is_ascii_digit(),
        [first, ..] => *first != b'0' && are_digits(bytes),
    }
}

fn is_number_mark(bytes: &[u8]) -> bool
    ensures { result ≡ names.is_number_mark bytes.now }
{
    match bytes {
        [] => true,
        [first, rest @ ..] => *first == b'#' && is_numeral(rest),
    }
}

fn is_memory_base(bytes: &[u8]) -> bool
    ensures { result ≡ names.is_memory_base bytes.now }
{
    match bytes {
        [] => false,
        [first, rest @ ..] => *first == b'M' && is_number_mark(rest),
    }
}

// What stands before the first colon, and after it.
fn at_colon(bytes: &[u8]) -> (&[u8], &[u8])
    ensures before { result.0.now ≡ names.before_colon bytes.now }
    ensures after { result.1.now ≡ names.after_colon bytes.now }
{
    for i in 0..bytes.len() {
        if bytes[i] == b':' {
            return (&bytes[..i], &bytes[i + 1..]);
        }
    }
    (bytes, &[])
}

fn is_memory_kind(bytes: &[u8]) -> bool
    ensures { result ≡ list_any (bytes_eq bytes.now) names.memory_kinds }
{
    const BLOCKS: &[u8] = b"ptrb";
    const OFFSETS: &[u8] = b"ptro";
    if bytes == BLOCKS {
        return true;
    }
    if bytes == OFFSETS {
        return true;
    }
    kind_of(bytes).is_some()
}

#[tactic(auto, unfolding(qed_terms::specs::Names::is_memory_name))]
fn is_memory_name(bytes: &[u8]) -> bool
    ensures { result ≡ names.is_memory_name bytes.now }
{
    let (base, kind) = at_colon(bytes);
    is_memory_base(base) && is_memory_kind(kind)
}

/// The sort of a name that stands among arguments, which its form tells.
pub fn name_sort(name: &[u8]) -> Sort
    ensures { result ≡ spec.name_sort name.now }
{
    if is_memory_name(name) {
        Sort::Memory
    } else {
        Sort::Int
    }
}

/// A space and a name.
pub fn name_part(bytes: &[u8]) -> Option<(&[u8], &[u8])>
    ensures { FindsWord result (spec.name_part bytes.now) }
{
    let (found, rest) = part(bytes)?;
    if is_name(found) {
        Some((found, rest))
    } else {
        None
    }
}
