// The whole report.
ghost use Rattle.std.specs.Prelude.{◌≡◌, ◌+◌, ℕ, List, IfOk, Err};
ghost use Rattle.report_read.specs.Read as spec;
ghost use Rattle.report_read.specs.View.{view_document};
ghost use Rattle.report_read.specs.declared.read.ReadEnd.TheVariants as end;

use crate::bytes::after;
use crate::goals::refusal_at;
use crate::report::{Document, Report, summary_text};
use crate::sections::{goals_in, hypotheses_in, ignored_in};
use std::alloc::Global;
use wp_base::NoMemory;

/// Why a report wasn't read.
#[derive(Clone, Copy, Debug, PartialEq, Eq)]
pub enum ReadEnd {
    /// It isn't one: on this line stands what can't stand there.
    Unread(usize),
    NoMemory,
}

impl From<NoMemory> for ReadEnd {
    ghost from_gives = { λ _ e. e ≡ end.NoMemory };

    fn from(_: NoMemory) -> Self {
        ReadEnd::NoMemory
    }
}

// The line on which this rest of a text begins.
fn line_of(text: &[u8], rest: &[u8]) -> usize
    ensures { result ≡ spec.line_of text.now rest.now }
{
    let before = text.len().saturating_sub(rest.len());
    text[..before].iter().filter(|b| **b == b'\n').count() + 1
}

// The report, if nothing stands behind it.
fn ends<'a>(text: &[u8], rest: &[u8], document: Document<'a>) -> Result<Document<'a>, ReadEnd>
    ensures read { IfOk result (λ d. spec.ends text.now rest.now (view_document document.entry) ≡ spec.read (view_document d)) }
    ensures unread { (line : ℕ) → result ≡ Err (ReadEnd.Unread line) → spec.ends text.now rest.now (view_document document.entry) ≡ spec.unread line }
{
    if rest.is_empty() {
        Ok(document)
    } else {
        Err(ReadEnd::Unread(line_of(text, rest)))
    }
}

/// The report or the refusal that has these bytes, or the first line that can't stand in one.
#[tactic(auto, unfolding(crate::specs::Read::document_in, crate::specs::Read::report_in))]
pub fn read_document(alloc: Global, text: &[u8]) -> Result<Document<'_>, ReadEnd>
    ensures read { IfOk result (λ d. spec.document_in text.now ≡ spec.read (view_document d)) }
    ensures unread { (line : ℕ) → result ≡ Err (ReadEnd.Unread line) → spec.document_in text.now ≡ spec.unread line }
{
    if let Some((refusal, rest)) = refusal_at(text) {
        return ends(text, rest, Document::Refusal(refusal));
    }
    let (hypotheses, rest) = hypotheses_in(alloc, text)?;
    let (ignored, rest) = ignored_in(alloc, rest)?;
    let (goals, rest) = goals_in(alloc, rest)?;
    let summary = summary_text(alloc, goals.as_slice())?;
    let Some(behind) = after(summary.as_slice(), rest) else {
        return Err(ReadEnd::Unread(line_of(text, rest)));
    };
    let report = Report {
        hypotheses,
        ignored,
        goals,
    };
    ends(text, behind, Document::Report(report))
}
