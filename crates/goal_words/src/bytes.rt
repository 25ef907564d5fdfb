// The front of a text: a byte, a word, a space and a word, the end.
ghost use Rattle.std.specs.Prelude.{◌≡◌, ◌≤◌, length};
ghost use Rattle.std.specs.List.{prefix_len};
ghost use Rattle.goal_words.specs.Bytes as spec;
ghost use Rattle.goal_words.specs.Views.{FindsRest, FindsWord};

/// What comes after this byte, where it stands at the front.
pub fn after_byte(byte: u8, bytes: &[u8]) -> Option<&[u8]>
    ensures { FindsRest result (spec.expect byte bytes.now) }
{
    match bytes {
        [first, rest @ ..] if *first == byte => Some(rest),
        _ => None,
    }
}

/// Whether the text ends here.
pub fn is_end(bytes: &[u8]) -> bool
    ensures { result ≡ spec.is_end bytes.now }
{
    bytes.is_empty()
}

fn is_plain(byte: u8) -> bool
    ensures { result ≡ spec.is_plain byte }
{
    !(byte == b' ' || byte == b'(' || byte == b')')
}

fn word_len(bytes: &[u8]) -> usize
    ensures value { result ≡ prefix_len spec.is_plain bytes.now }
    ensures within { result ≤ length bytes.now }
{
    bytes.iter().take_while(|b| is_plain(**b)).count()
}

/// The word at the front, and what comes after it.
pub fn word(bytes: &[u8]) -> (&[u8], &[u8])
    ensures front { result.0.now ≡ spec.front bytes.now }
    ensures after { result.1.now ≡ spec.after bytes.now }
{
    let len = word_len(bytes);
    (&bytes[..len], &bytes[len..])
}

/// A space and a word.
pub fn part(bytes: &[u8]) -> Option<(&[u8], &[u8])>
    ensures { FindsWord result (spec.part bytes.now) }
{
    let rest = after_byte(b' ', bytes)?;
    let (found, rest) = word(rest);
    Some((found, rest))
}
