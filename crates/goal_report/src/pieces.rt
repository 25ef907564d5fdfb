// The pieces of a text that grows.
ghost use Rattle.std.specs.Prelude.{◌≡◌, ◌++◌, IfOk};

use itoa::{Buffer, Integer};
use wp_base::NoMemory;

/// Puts bytes at the end of a text.
pub(crate) fn put(text: &mut Vec<u8>, bytes: &[u8]) -> Result<(), NoMemory>
    ensures { IfOk result (λ _. text.new.items ≡ text.old.items ++ bytes.now) }
{
    text.extend_from_slice(bytes)?;
    Ok(())
}

/// Puts a number in decimal at the end of a text.
pub(crate) fn put_number<I: Integer>(text: &mut Vec<u8>, number: I) -> Result<(), NoMemory>
    ensures { IfOk result (λ _. text.new.items ≡ text.old.items ++ I.text number) }
{
    let mut buffer = Buffer::new();
    put(text, buffer.format(number).as_bytes())
}
