// The text of a refusal.
ghost use Rattle.std.specs.Prelude.{◌≡◌, ◌++◌, IfOk};
ghost use Rattle.wp_cli.specs.Report as spec;

use crate::pieces::{put, put_number};
use std::alloc::Global;
use wp_base::{NoMemory, Refusal, Str};

fn put_refusal(text: &mut Vec<u8>, refusal: Refusal) -> Result<(), NoMemory>
    ensures { IfOk result (λ _. text.new.items ≡ text.old.items ++ spec.refusal_line refusal) }
{
    put(text, b"refused line ")?;
    put_number(text, refusal.line)?;
    put(text, b": ")?;
    put_number(text, refusal.rule.number())?;
    put(text, b" ")?;
    put(text, refusal.rule.name().as_bytes())?;
    put(text, b"\n")?;
    Ok(())
}

/// The line that a refused text is answered with.
pub fn refusal_text(alloc: Global, refusal: Refusal) -> Result<Str, NoMemory>
    ensures { IfOk result (λ text. text ≡ spec.refusal_line refusal) }
{
    let mut text = Vec::new(alloc);
    put_refusal(&mut text, refusal)?;
    Ok(Str::from_vec(text))
}
