// Names of C (C11 6.4.2.1).
ghost use Rattle.std.specs.Prelude.{◌≡◌};
ghost use Rattle.std.specs.List.{list_all};
ghost use Rattle.plain_annotations.specs.Names as spec;
ghost use Rattle.qed_terms.specs.Names.{is_digit, is_letter};

use wp_base::Str;

fn is_c_byte(byte: u8) -> bool
    ensures { result ≡ spec.is_c_byte byte }
{
    matches!(byte, b'a'..=b'z' | b'A'..=b'Z' | b'0'..=b'9' | b'_')
}

fn is_digit_byte(byte: u8) -> bool
    ensures { result ≡ is_digit byte }
{
    matches!(byte, b'0'..=b'9')
}

fn begins_well(bytes: &[u8]) -> bool
    ensures { result ≡ spec.begins_well bytes.now }
{
    match bytes.split_first() {
        None => false,
        Some((first, _)) => !is_digit_byte(*first),
    }
}

fn are_c_bytes(bytes: &[u8]) -> bool
    ensures { result ≡ list_all spec.is_c_byte bytes.now }
{
    bytes.iter().all(|byte| is_c_byte(*byte))
}

fn is_c_name(name: &Str) -> bool
    ensures { result ≡ spec.is_c_name name.now }
{
    let bytes = name.bytes();
    begins_well(bytes) && are_c_bytes(bytes)
}

pub(crate) fn are_c_names(names: &[Str]) -> bool
    ensures { result ≡ spec.are_c_names names.now }
{
    names.iter().all(|name| is_c_name(name))
}
