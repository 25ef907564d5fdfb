// The lines of a file's goals.
ghost use Rattle.std.specs.Prelude.{◌≡◌, ◌+◌, ◌++◌, IfOk};

use crate::judges::Prover;
use goal_report::FunctionLines;
use wp_base::NoMemory;

/// The lines of a report so far, and how many goals they tell of, and how many of these are proved.
#[derive(Drop)]
pub(crate) struct Page {
    pub(crate) text: Vec<u8>,
    pub(crate) goals: usize,
    pub(crate) proved: usize,
}

// The lines of a function's goals.
pub(crate) fn put_lines(page: &mut Page, lines: &FunctionLines<Prover>) -> Result<(), NoMemory>
    ensures text { IfOk result (λ _. page.new.text.items ≡ page.old.text.items ++ lines.now.text.items) }
    ensures goals { IfOk result (λ _. page.new.goals ≡ page.old.goals + lines.now.goals) }
    ensures proved { IfOk result (λ _. page.new.proved ≡ page.old.proved + lines.now.proved) }
{
    page.text.extend_from_slice(lines.text.as_slice())?;
    page.goals = page.goals.checked_add(lines.goals).ok_or(NoMemory)?;
    page.proved = page.proved.checked_add(lines.proved).ok_or(NoMemory)?;
    Ok(())
}
