// Words and numbers, put at the end of a text.
ghost use Rattle.std.specs.Prelude.{◌≡◌, ◌^◌, ◌∷◌, ◌++◌, true, nat_lt, IfOk};
ghost use Rattle.std.specs.Fmt.{decimal, signed_decimal};
ghost use Rattle.goal_words.specs.Numbers.{fits_128};

use itoa::Buffer;
use wp_base::NoMemory;

/// These bytes.
pub fn put(text: &mut Vec<u8>, bytes: &[u8]) -> Result<(), NoMemory>
    ensures { IfOk result (λ _. text.new.items ≡ text.old.items ++ bytes.now) }
{
    text.extend_from_slice(bytes)?;
    Ok(())
}

/// A number, in decimal.
pub fn put_int(text: &mut Vec<u8>, value: i128) -> Result<(), NoMemory>
    ensures text { IfOk result (λ _. text.new.items ≡ text.old.items ++ signed_decimal value) }
    ensures held { fits_128 value ≡ true }
{
    let mut buffer = Buffer::new();
    put(text, buffer.format(value).as_bytes())
}

/// A space, and then these bytes.
pub fn put_part(text: &mut Vec<u8>, bytes: &[u8]) -> Result<(), NoMemory>
    ensures { IfOk result (λ _. text.new.items ≡ text.old.items ++ 32 ∷ bytes.now) }
{
    put(text, b" ")?;
    put(text, bytes)
}

/// A space and a number of 32 bits.
pub fn put_count(text: &mut Vec<u8>, count: u32) -> Result<(), NoMemory>
    ensures text { IfOk result (λ _. text.new.items ≡ text.old.items ++ 32 ∷ decimal count) }
    ensures held { nat_lt count (2 ^ 32) ≡ true }
{
    let mut buffer = Buffer::new();
    put_part(text, buffer.format(count).as_bytes())
}
