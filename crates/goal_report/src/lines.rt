// The lines around the goals.
ghost use Rattle.std.specs.Prelude.{◌≡◌, ◌-◌, ◌++◌, IfOk, map};
ghost use Rattle.goal_report.specs.Report as spec;

use crate::pieces::{put, put_number};
use wp_base::{Line, NoMemory, Str};

fn put_hypothesis(text: &mut Vec<u8>, name: &Str) -> Result<(), NoMemory>
    ensures { IfOk result (λ _. text.new.items ≡ text.old.items ++ spec.hypothesis_line name.now) }
{
    put(text, b"hypothesis no pointer to ")?;
    put(text, name.bytes())?;
    put(text, b"\n")?;
    Ok(())
}

/// The hypotheses: that no pointer leads to the variables with these names.
pub fn put_hypotheses(text: &mut Vec<u8>, names: &[Str]) -> Result<(), NoMemory>
    ensures { IfOk result (λ _. text.new.items ≡ text.old.items ++ spec.hypothesis_lines names.now) }
{
    for name in names {
        put_hypothesis(text, name)?;
    }
    Ok(())
}

#[tactic(auto, using(crate::proofs::Spelling::ignored_put))]
fn put_ignored_line(text: &mut Vec<u8>, line: Line) -> Result<(), NoMemory>
    ensures { IfOk result (λ _. text.new.items ≡ text.old.items ++ spec.ignored_line line) }
{
    put(text, b"ignored from line ")?;
    put_number(text, line)?;
    put(text, b"\n")
}

/// The lines of what is ignored.
pub fn put_ignored(text: &mut Vec<u8>, lines: &[Line]) -> Result<(), NoMemory>
    ensures { IfOk result (λ _. text.new.items ≡ text.old.items ++ spec.ignored_lines lines.now) }
{
    for line in lines {
        put_ignored_line(text, *line)?;
    }
    Ok(())
}

/// The last line: so many goals, and so many of them proved.
#[tactic(auto, using(crate::proofs::Spelling::summary_line_put))]
pub fn put_summary(text: &mut Vec<u8>, goals: u128, proved: u128) -> Result<(), NoMemory>
    ensures { IfOk result (λ _. text.new.items ≡ text.old.items ++ spec.summary_line goals proved (goals - proved)) }
{
    put(text, b"goals ")?;
    put_number(text, goals)?;
    put(text, b" proved ")?;
    put_number(text, proved)?;
    put(text, b" unknown ")?;
    put_number(text, goals.saturating_sub(proved))?;
    put(text, b"\n")
}
