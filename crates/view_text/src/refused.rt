// A refusal, beside the line of the source that it tells.
ghost use Rattle.std.specs.Prelude.{◌≡◌, ◌++◌, IfOk, map, option_map, slice_get};
ghost use Rattle.report_read.specs.View.{bytes_of, view_refusal};
ghost use Rattle.report_read.specs.Report.{refusal_line};
ghost use Rattle.view_text.specs.Refused as spec;

use crate::pieces::put_line;
use report_read::Refusal;
use report_shown::{lines, put, put_number};
use std::alloc::Global;
use wp_base::NoMemory;

fn put_refusal(text: &mut Vec<u8>, refusal: &Refusal) -> Result<(), NoMemory>
    ensures { IfOk result (λ _. text.new.items ≡ text.old.items ++ refusal_line (view_refusal refusal.now)) }
{
    put(text, b"refused line ")?;
    put_number(text, refusal.line)?;
    put(text, b": ")?;
    put_number(text, refusal.number)?;
    put(text, b" ")?;
    put(text, refusal.rule)?;
    put(text, b"\n")
}

fn line_in<'a>(lines: &[&'a [u8]], place: usize) -> Option<&'a [u8]>
    ensures { option_map bytes_of result ≡ option_map bytes_of (slice_get lines.now place) }
{
    match lines.get(place) {
        Some(found) => Some(*found),
        None => None,
    }
}

// The line with this number, from 1.
#[tactic(auto, using(crate::proofs::Told::no_line_at, crate::proofs::Told::line_found))]
fn line_at<'a>(lines: &[&'a [u8]], line: u32) -> Option<&'a [u8]>
    ensures { option_map bytes_of result ≡ spec.line_at (map bytes_of lines.now) line }
{
    if line == 0 {
        return None;
    }
    line_in(lines, line as usize - 1)
}

fn put_told(text: &mut Vec<u8>, number: u32, line: Option<&[u8]>) -> Result<(), NoMemory>
    ensures { IfOk result (λ _. text.new.items ≡ text.old.items ++ spec.told_line number (option_map bytes_of line.entry)) }
{
    match line {
        Some(line) => put_line(text, number as usize, line),
        None => Ok(()),
    }
}

fn put_both(
    alloc: Global,
    text: &mut Vec<u8>,
    source: &[u8],
    refusal: &Refusal,
) -> Result<(), NoMemory>
    ensures { IfOk result (λ _. text.new.items ≡ text.old.items ++ spec.refusal_view source.now (view_refusal refusal.now)) }
{
    let lines = lines(alloc, source)?;
    put_refusal(text, refusal)?;
    put_told(text, refusal.line, line_at(lines.as_slice(), refusal.line))?;
    Ok(())
}

/// The refusal, and below it the line of the source that it tells, if there is such a line.
#[tactic(auto, using(crate::proofs::Whole::from_none))]
pub fn refusal_view(alloc: Global, source: &[u8], refusal: &Refusal) -> Result<Vec<u8>, NoMemory>
    ensures { IfOk result (λ text. text.items ≡ spec.refusal_view source.now (view_refusal refusal.now)) }
{
    let mut text = Vec::new(alloc);
    put_both(alloc, &mut text, source, refusal)?;
    Ok(text)
}
