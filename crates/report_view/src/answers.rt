// The answer to a source and the text of its report.
ghost use Rattle.std.specs.Prelude.{◌≡◌, ◌++◌, IfOk};
ghost use Rattle.report_read.specs.View.{view_document, view_refusal, view_report};
ghost use Rattle.report_shown.specs.View.{view_goals};
ghost use Rattle.view_text.specs.Refused.{refusal_view as refused};
ghost use Rattle.view_words.specs.CommandView.{view_command};
ghost use Rattle.report_view.specs.Answer as spec;
ghost use Rattle.report_view.specs.View.{view_answer};

use crate::names::said_of;
use report_data::{csv_text, json_text};
use report_page::page;
use report_read::{Document, Goal, ReadEnd, Refusal, Report, read_document};
use report_shown::{all_proved, put, put_number, shown};
use std::alloc::Global;
use view_text::{refusal_view, text_view};
use view_words::{Command, Form};
use wp_base::{NoMemory, Status};

/// How a run ends, what it writes, and what it says of a name that the report hasn't.
#[derive(Drop)]
pub struct Answer {
    pub status: Status,
    pub text: Vec<u8>,
    pub said: Vec<u8>,
}

fn writes(alloc: Global, status: Status, text: Vec<u8>) -> Answer
    ensures { view_answer result ≡ spec.writes status text.items }
{
    Answer {
        status,
        text,
        said: Vec::new(alloc),
    }
}

fn says(alloc: Global, said: Vec<u8>) -> Answer
    ensures { view_answer result ≡ spec.says said.items }
{
    Answer {
        status: Status::Usage,
        text: Vec::new(alloc),
        said,
    }
}

#[tactic(auto, unfolding(crate::specs::Answer::view_in))]
fn view_in(
    alloc: Global,
    command: Command,
    source: &[u8],
    report: &Report,
    goals: &[Goal],
) -> Result<Vec<u8>, NoMemory>
    ensures { IfOk result (λ text. text.items ≡ spec.view_in command.entry.form command.entry.color command.entry.file.now source.now (view_report report.now) (view_goals goals.now)) }
{
    match command.form {
        Form::Text => text_view(alloc, command.color, source, report, goals),
        Form::Html => page(alloc, command.file.bytes(), source, goals),
        Form::Json => json_text(alloc, goals),
        Form::Csv => csv_text(alloc, goals),
    }
}

fn status_of(goals: &[Goal]) -> Status
    ensures { result ≡ spec.status_of (view_goals goals.now) }
{
    if all_proved(goals) {
        Status::AllProved
    } else {
        Status::SomeUnknown
    }
}

fn shown_answer(
    alloc: Global,
    command: Command,
    source: &[u8],
    report: &Report,
    goals: &[Goal],
) -> Result<Answer, NoMemory>
    ensures { IfOk result (λ a. view_answer a ≡ spec.shown_answer (view_command command.entry) source.now (view_report report.now) (view_goals goals.now)) }
{
    let text = view_in(alloc, command, source, report, goals)?;
    Ok(writes(alloc, status_of(goals), text))
}

#[tactic(auto, unfolding(crate::specs::Answer::report_answer))]
fn report_answer(
    alloc: Global,
    command: Command,
    source: &[u8],
    report: &Report,
) -> Result<Answer, NoMemory>
    ensures { IfOk result (λ a. view_answer a ≡ spec.report_answer (view_command command.entry) source.now (view_report report.now)) }
{
    let goals = report.goals.as_slice();
    if let Some(said) = said_of(alloc, goals, command.wanted)? {
        return Ok(says(alloc, said));
    }
    let goals = shown(alloc, command.wanted, goals)?;
    shown_answer(alloc, command, source, report, goals.as_slice())
}

fn refusal_answer(alloc: Global, source: &[u8], refusal: &Refusal) -> Result<Answer, NoMemory>
    ensures { IfOk result (λ a. view_answer a ≡ spec.writes Status.Refused (refused source.now (view_refusal refusal.now))) }
{
    let text = refusal_view(alloc, source, refusal)?;
    Ok(writes(alloc, Status::Refused, text))
}

fn put_unread(text: &mut Vec<u8>, line: usize) -> Result<(), NoMemory>
    ensures { IfOk result (λ _. text.new.items ≡ text.old.items ++ spec.unread_text line) }
{
    put(text, b"not a report line ")?;
    put_number(text, line)?;
    put(text, b"\n")
}

fn unread_answer(alloc: Global, line: usize) -> Result<Answer, NoMemory>
    ensures { IfOk result (λ a. view_answer a ≡ spec.writes Status.Refused (spec.unread_text line)) }
{
    let mut text = Vec::new(alloc);
    put_unread(&mut text, line)?;
    Ok(writes(alloc, Status::Refused, text))
}

/// The answer to a source and a text: a view of the report that the text is, a refusal in its place, or the first line that can't stand in a report.
pub fn answer_to(
    alloc: Global,
    command: Command,
    source: &[u8],
    text: &[u8],
) -> Result<Answer, NoMemory>
    ensures { IfOk result (λ a. view_answer a ≡ spec.answer (view_command command.entry) source.now text.now) }
{
    match read_document(alloc, text) {
        Ok(Document::Report(report)) => report_answer(alloc, command, source, &report),
        Ok(Document::Refusal(refusal)) => refusal_answer(alloc, source, &refusal),
        Err(ReadEnd::Unread(line)) => unread_answer(alloc, line),
        Err(ReadEnd::NoMemory) => Err(NoMemory),
    }
}
