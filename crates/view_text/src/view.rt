// The whole view.
ghost use Rattle.std.specs.Prelude.{◌≡◌, ◌++◌, IfOk, map};
ghost use Rattle.report_read.specs.View.{bytes_of, view_report};
ghost use Rattle.report_read.specs.Bytes.{joined};
ghost use Rattle.report_shown.specs.View.{view_goals};
ghost use Rattle.view_text.specs.Text as spec;

use crate::goals::{put_elsewhere, put_source};
use crate::pieces::MARGIN;
use crate::table::put_table;
use report_read::{Goal, Report};
use report_shown::{by_line, elsewhere, lines, put, put_number};
use std::alloc::Global;
use wp_base::NoMemory;

fn put_hypothesis(text: &mut Vec<u8>, name: &[u8]) -> Result<(), NoMemory>
    ensures { IfOk result (λ _. text.new.items ≡ text.old.items ++ spec.hypothesis_note name.now) }
{
    put(text, MARGIN)?;
    put(text, b"hypothesis no pointer to ")?;
    put(text, name)?;
    put(text, b"\n")
}

#[tactic(auto, using(report_shown::proofs::Joined::joined_more, report_shown::proofs::Joined::joined_end))]
fn put_hypotheses(text: &mut Vec<u8>, names: &[&[u8]]) -> Result<(), NoMemory>
    ensures { IfOk result (λ _. text.new.items ≡ text.old.items ++ joined (map spec.hypothesis_note (map bytes_of names.now))) }
{
    for name in names {
        put_hypothesis(text, *name)?;
    }
    Ok(())
}

fn put_ignored(text: &mut Vec<u8>, line: u32) -> Result<(), NoMemory>
    ensures { IfOk result (λ _. text.new.items ≡ text.old.items ++ spec.ignored_note line) }
{
    put(text, MARGIN)?;
    put(text, b"ignored from line ")?;
    put_number(text, line)?;
    put(text, b"\n")
}

#[tactic(auto, using(report_shown::proofs::Joined::joined_more_plain, report_shown::proofs::Joined::joined_end_plain))]
fn put_all_ignored(text: &mut Vec<u8>, lines: &[u32]) -> Result<(), NoMemory>
    ensures { IfOk result (λ _. text.new.items ≡ text.old.items ++ joined (map spec.ignored_note lines.now)) }
{
    for line in lines {
        put_ignored(text, *line)?;
    }
    Ok(())
}

#[tactic(auto, using(report_shown::proofs::Joined::two_put), unfolding(crate::specs::Text::notes))]
fn put_notes(text: &mut Vec<u8>, report: &Report) -> Result<(), NoMemory>
    ensures { IfOk result (λ _. text.new.items ≡ text.old.items ++ spec.notes (view_report report.now).hypotheses (view_report report.now).ignored) }
{
    put_hypotheses(text, report.hypotheses.as_slice())?;
    put_all_ignored(text, report.ignored.as_slice())
}

fn put_view(
    alloc: Global,
    text: &mut Vec<u8>,
    color: bool,
    source: &[u8],
    report: &Report,
    shown: &[Goal],
) -> Result<(), NoMemory>
    ensures { IfOk result (λ _. text.new.items ≡ text.old.items ++ spec.text_view color source.now (view_report report.now) (view_goals shown.now)) }
{
    let lines = lines(alloc, source)?;
    let placed = by_line(alloc, lines.len(), shown)?;
    let others = elsewhere(alloc, lines.len(), shown)?;
    put_source(text, color, lines.as_slice(), placed.as_slice())?;
    put_elsewhere(text, color, others.as_slice())?;
    put_notes(text, report)?;
    put_table(alloc, text, shown)?;
    Ok(())
}

/// The source, with the goals that are shown below their lines; those on no line; what the report takes for granted; and a table of the functions. A
/// formula is wrapped at 100 columns. In colour a verdict is green or red.
#[tactic(auto, using(crate::proofs::Whole::from_none))]
pub fn text_view(
    alloc: Global,
    color: bool,
    source: &[u8],
    report: &Report,
    shown: &[Goal],
) -> Result<Vec<u8>, NoMemory>
    ensures { IfOk result (λ text. text.items ≡ spec.text_view color source.now (view_report report.now) (view_goals shown.now)) }
{
    let mut text = Vec::new(alloc);
    put_view(alloc, &mut text, color, source, report, shown)?;
    Ok(text)
}
