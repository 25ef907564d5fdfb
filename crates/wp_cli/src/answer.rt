// The answer to a text.
ghost use Rattle.std.specs.Prelude.{◌≡◌, ◌≤◌, ◌<◌, ℕ, List, IfOk, length};
ghost use Rattle.c_kinds.specs.declared.models.Machdep.{Machdep as Model};
ghost use Rattle.c_lexer.specs.Tokens.{most_bytes};
ghost use Rattle.wp_cli.specs.AnswerView.{status_of};
ghost use Rattle.wp_cli.specs.Answers.{Answers};
ghost use Rattle.wp_cli.specs.Report as spec;
ghost use Rattle.wp_words.specs.Command.{Wanted as Wishes};
ghost use Rattle.wp_words.specs.CommandView.{view_wanted};

use crate::refusals::refusal_text;
use c_kinds::Machdep;
use std::alloc::Global;
use text_reports::{FileReport, report_text};
use wp_base::{NoMemory, Refusal, Rule, Status, Stop, Str};
use wp_words::Wanted;

/// How a run ends, and what it writes.
#[derive(Drop)]
pub struct Answer {
    pub status: Status,
    pub text: Str,
}

// A report, with the status that goes with it.
fn report_answer(report: FileReport) -> Answer
    ensures status { result.status ≡ status_of report.all_proved }
    ensures text { result.text ≡ report.text }
{
    let status = if report.all_proved {
        Status::AllProved
    } else {
        Status::SomeUnknown
    };
    Answer {
        status,
        text: report.text,
    }
}

// The line that refuses a text.
fn refusal_answer(alloc: Global, refusal: Refusal) -> Result<Answer, NoMemory>
    ensures status { IfOk result (λ answer. answer.status ≡ Status.Refused) }
    ensures text { IfOk result (λ answer. answer.text ≡ spec.refusal_line refusal) }
{
    let text = refusal_text(alloc, refusal)?;
    Ok(Answer {
        status: Status::Refused,
        text,
    })
}

/// The answer to a text that is too long.
pub fn too_long_answer(alloc: Global) -> Result<Answer, NoMemory>
    ensures answer { IfOk result (λ answer. (text : List ℕ) → most_bytes < length text → (m : Model) (w : Wishes) → Answers m w text answer.status answer.text) }
    ensures status { IfOk result (λ answer. answer.status ≡ Status.Refused) }
{
    refusal_answer(
        alloc,
        Refusal {
            rule: Rule::Limit,
            line: 1,
        },
    )
}

/// The answer to a text with this data model: the report of the program that it spells, with its goals as they are wanted, or the line
/// that refuses it.
pub fn text_answer(
    alloc: Global,
    model: Machdep,
    text: &[u8],
    wanted: Wanted,
) -> Result<Answer, NoMemory>
    requires { length text.now ≤ most_bytes }
    ensures { IfOk result (λ answer. Answers model (view_wanted wanted) text.now answer.status answer.text) }
{
    match report_text(alloc, model, text, wanted) {
        Ok(report) => Ok(report_answer(report)),
        Err(Stop::Refused(refusal)) => refusal_answer(alloc, refusal),
        Err(Stop::NoMemory) => Err(NoMemory),
    }
}
