// Bytes by their use in tokens, and runs of them.
ghost use Rattle.std.specs.Prelude.{◌≡◌, ◌≤◌, ◌==◌, ◌+◌, length, true, codes};
ghost use Rattle.std.specs.List.{prefix_len};
ghost use Rattle.c_lexer.specs.Bytes as spec;
ghost use Rattle.c_lexer.specs.Pieces.{line_len};
ghost use Rattle.c_lexer.specs.Lexemes.{runs_on};

pub fn is_blank(annotated: bool, b: u8) -> bool
    ensures { result ≡ spec.is_blank annotated b }
{
    b == b' ' || (9 <= b && b <= 13) || (annotated && b == b'@')
}

pub fn is_digit(b: u8) -> bool
    ensures { result ≡ spec.is_digit b }
{
    b'0' <= b && b <= b'9'
}

pub fn is_octal(b: u8) -> bool
    ensures { result ≡ spec.is_octal b }
{
    b'0' <= b && b <= b'7'
}

pub fn is_hex(b: u8) -> bool
    ensures { result ≡ spec.is_hex b }
{
    is_digit(b) || (b'a' <= b && b <= b'f') || (b'A' <= b && b <= b'F')
}

fn is_letter(b: u8) -> bool
    ensures { result ≡ spec.is_letter b }
{
    (b'a' <= b && b <= b'z') || (b'A' <= b && b <= b'Z') || b == b'_'
}

fn is_word(b: u8) -> bool
    ensures { result ≡ spec.is_word b }
{
    is_letter(b) || is_digit(b)
}

pub fn opens_name(annotated: bool, b: u8) -> bool
    ensures { result ≡ spec.opens_name annotated b }
{
    is_letter(b) || (annotated && b == b'\\')
}

pub fn is_x(b: u8) -> bool
    ensures { result ≡ spec.is_x b }
{
    b == b'x' || b == b'X'
}

pub fn is_plain(b: u8) -> bool
    ensures { result ≡ spec.is_plain b }
{
    b' ' <= b && b <= b'~' && b != b'\'' && b != b'\\'
}

pub fn digit_value(b: u8) -> u8
    requires { spec.is_hex b ≡ true }
    ensures { result ≡ spec.digit_value b }
{
    if is_digit(b) {
        b - b'0'
    } else if b'a' <= b {
        b - 87
    } else {
        b - 55
    }
}

pub fn letter_escape(b: u8) -> Option<u8>
    ensures { result ≡ spec.letter_escape b }
{
    match b {
        b'\'' | b'"' | b'?' | b'\\' => Some(b),
        b'a' => Some(7),
        b'b' => Some(8),
        b'f' => Some(12),
        b'n' => Some(10),
        b'r' => Some(13),
        b't' => Some(9),
        b'v' => Some(11),
        _ => None,
    }
}

/// Whether the first byte is this one.
pub fn begins_with(bytes: &[u8], first: u8) -> bool
    ensures { result ≡ spec.begins (λ b. b == first) bytes.now }
{
    match bytes {
        [] => false,
        [b, ..] => *b == first,
    }
}

pub fn begins_blank(annotated: bool, bytes: &[u8]) -> bool
    ensures { result ≡ spec.begins (spec.is_blank annotated) bytes.now }
{
    match bytes {
        [] => false,
        [b, ..] => is_blank(annotated, *b),
    }
}

pub fn begins_x(bytes: &[u8]) -> bool
    ensures { result ≡ spec.begins spec.is_x bytes.now }
{
    match bytes {
        [] => false,
        [b, ..] => is_x(*b),
    }
}

pub fn begins_hex(bytes: &[u8]) -> bool
    ensures { result ≡ spec.begins spec.is_hex bytes.now }
{
    match bytes {
        [] => false,
        [b, ..] => is_hex(*b),
    }
}

/// Whether a number that ends here is followed by what may not follow it.
pub fn number_runs_on(bytes: &[u8]) -> bool
    ensures { result ≡ runs_on bytes.now }
{
    match bytes {
        [] => false,
        [b, after @ ..] => is_word(*b) || (*b == b'.' && !begins_with(after, b'.')),
    }
}

pub fn word_len(bytes: &[u8]) -> usize
    ensures value { result ≡ prefix_len spec.is_word bytes.now }
    ensures within { result ≤ length bytes.now }
{
    bytes.iter().take_while(|b| is_word(**b)).count()
}

pub fn digits_len(bytes: &[u8]) -> usize
    ensures value { result ≡ prefix_len spec.is_digit bytes.now }
    ensures within { result ≤ length bytes.now }
{
    bytes.iter().take_while(|b| is_digit(**b)).count()
}

pub fn octal_len(bytes: &[u8]) -> usize
    ensures value { result ≡ prefix_len spec.is_octal bytes.now }
    ensures within { result ≤ length bytes.now }
{
    bytes.iter().take_while(|b| is_octal(**b)).count()
}

pub fn hex_len(bytes: &[u8]) -> usize
    ensures value { result ≡ prefix_len spec.is_hex bytes.now }
    ensures within { result ≤ length bytes.now }
{
    bytes.iter().take_while(|b| is_hex(**b)).count()
}

/// How many bytes come before the end of the line.
pub fn rest_of_line(bytes: &[u8]) -> usize
    ensures value { result ≡ line_len bytes.now }
    ensures within { result ≤ length bytes.now }
{
    bytes.iter().take_while(|b| **b != b'\n').count()
}
