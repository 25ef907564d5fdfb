// Lines of the view.
ghost use Rattle.std.specs.Prelude.{◌≡◌, ◌++◌, IfOk, replicate};
ghost use Rattle.view_text.specs.Text as spec;

use itoa::Buffer;
use report_shown::put;
use wp_base::NoMemory;

/// What stands before a line that isn't of the source.
pub const MARGIN: &[u8] = b"       | ";

#[tactic(auto, using(crate::proofs::Putting::space_more))]
fn put_spaces(text: &mut Vec<u8>, count: usize) -> Result<(), NoMemory>
    ensures { IfOk result (λ _. text.new.items ≡ text.old.items ++ replicate count 32) }
{
    for _done in 0..count {
        text.push(b' ')?;
    }
    Ok(())
}

/// Puts a number, with spaces before it up to a width.
#[tactic(auto, using(crate::proofs::Putting::padded_put))]
pub fn put_padded(text: &mut Vec<u8>, width: usize, number: usize) -> Result<(), NoMemory>
    ensures { IfOk result (λ _. text.new.items ≡ text.old.items ++ spec.padded width number) }
{
    let mut buffer = Buffer::new();
    let digits = buffer.format(number).as_bytes();
    put_spaces(text, width.saturating_sub(digits.len()))?;
    put(text, digits)
}

/// Puts a line of the source, behind its number.
#[tactic(auto, using(crate::proofs::Putting::line_put))]
pub fn put_line(text: &mut Vec<u8>, number: usize, line: &[u8]) -> Result<(), NoMemory>
    ensures { IfOk result (λ _. text.new.items ≡ text.old.items ++ spec.source_line number line.now) }
{
    put_padded(text, 6, number)?;
    put(text, b" | ")?;
    put(text, line)?;
    put(text, b"\n")
}
