// Numbers and flags, each of which has one text.
ghost use Rattle.std.specs.Prelude.{◌≡◌};
ghost use Rattle.goal_words.specs.Bytes.{named_part};
ghost use Rattle.goal_words.specs.Numbers as spec;
ghost use Rattle.goal_words.specs.Views.{Finds};

use crate::bytes::part;
use itoa::Buffer;
use std::str;

/// The number whose text this is.
pub fn number(word: &[u8]) -> Option<i128>
    ensures { result ≡ spec.number word.now }
{
    let Ok(text) = str::from_utf8(word) else {
        return None;
    };
    let Ok(value) = i128::from_str_radix(text, 10) else {
        return None;
    };
    let mut buffer = Buffer::new();
    if buffer.format(value).as_bytes() == word {
        Some(value)
    } else {
        None
    }
}

/// The number of 32 bits whose text this is.
pub fn count(word: &[u8]) -> Option<u32>
    ensures { result ≡ spec.count word.now }
{
    let Ok(text) = str::from_utf8(word) else {
        return None;
    };
    let Ok(number) = u32::from_str_radix(text, 10) else {
        return None;
    };
    let mut buffer = Buffer::new();
    if buffer.format(number).as_bytes() == word {
        Some(number)
    } else {
        None
    }
}

fn flag(word: &[u8]) -> Option<bool>
    ensures { result ≡ spec.flag word.now }
{
    const ONE: &[u8] = b"1";
    const ZERO: &[u8] = b"0";
    if word == ONE {
        Some(true)
    } else if word == ZERO {
        Some(false)
    } else {
        None
    }
}

/// The text of a flag.
pub fn flag_text(flag: bool) -> &'static [u8]
    ensures { result.now ≡ spec.flag_text flag }
{
    if flag { b"1" } else { b"0" }
}

/// A space and a flag.
pub fn flag_part(bytes: &[u8]) -> Option<(bool, &[u8])>
    ensures { Finds result (named_part spec.flag bytes.now) }
{
    let (found, rest) = part(bytes)?;
    let flag = flag(found)?;
    Some((flag, rest))
}

/// A space and a number of 32 bits.
pub fn count_part(bytes: &[u8]) -> Option<(u32, &[u8])>
    ensures { Finds result (named_part spec.count bytes.now) }
{
    let (found, rest) = part(bytes)?;
    let number = count(found)?;
    Some((number, rest))
}
