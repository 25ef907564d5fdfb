// Parts of a text that lies in memory.
ghost use Rattle.std.specs.Prelude.{◌≡◌, ◌+◌, ◌<◌, ◌^◌, drop, take, length, min};

/// What is left of a text from a place on: nothing past its end.
pub fn rest_from(text: &[u8], at: usize) -> &[u8]
    ensures rest { result.now ≡ drop at text.now }
    ensures end { at + length result.now < 2 ^ 64 }
{
    text.get(at..).unwrap_or(&[])
}

/// Copies the first bytes of a text, at most `most`, and says how many.
pub fn copy_piece(rest: &[u8], into: &mut [u8], most: usize) -> usize
    ensures count { result ≡ min most (min (length into.new) (length rest.now)) }
    ensures bytes { take result into.new ≡ take result rest.now }
{
    let count = most.min(into.len().min(rest.len()));
    into[..count].copy_from_slice(&rest[..count]);
    count
}
