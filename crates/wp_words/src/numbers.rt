// Numbers among the words.
ghost use Rattle.std.specs.Prelude.{◌≡◌};
ghost use Rattle.wp_words.specs.Command as spec;

// The number that one to five decimal digits are.
#[tactic(auto, using(crate::proofs::Digits::so_far, crate::proofs::Digits::one_more, crate::proofs::Digits::digits_more))]
fn number_of(text: &[u8]) -> Option<u32>
    ensures { result ≡ spec.number_of text.now }
{
    if text.is_empty() || text.len() > 5 {
        return None;
    }
    let mut value: u32 = 0;
    for byte in text {
        if *byte < b'0' || *byte > b'9' {
            return None;
        }
        value = value * 10 + u32::from(*byte - b'0');
    }
    Some(value)
}

/// The number that one to five decimal digits are, where it is within these bounds.
pub fn number_in(text: &[u8], low: u32, high: u32) -> Option<u32>
    ensures { result ≡ spec.number_in low high text.now }
{
    let number = number_of(text)?;
    if low <= number && number <= high {
        Some(number)
    } else {
        None
    }
}
