// The top call.
ghost use Rattle.std.specs.Prelude.{◌≡◌, ◌≤◌, [], None, IsTrue, IfOk, IfSome, Err};
ghost use Rattle.std.specs.Option.{ForSome};
ghost use Rattle.wp_io.specs.Faults.{Rose};
ghost use Rattle.wp_io.specs.Reads.{SameNames};
ghost use Rattle.view_words.specs.Command.{command_of as command};
ghost use Rattle.view_words.specs.CommandView.{view_command};
ghost use Rattle.report_view.specs.Top.{Answers, AnswersFiles, file_named, report_named, told};
ghost use Rattle.report_view.specs.View.{view_answer};
ghost use Rattle.report_view.specs.declared.top.Unread.TheVariants as unread;

use crate::answers::{Answer, answer_to};
use std::alloc::Global;
use view_words::{Command, command_of};
use wp_base::{NoMemory, Status, Str};
use wp_io::{Failed, Files, ReadEnd, Sink, read_all, write_all};

// How many bytes are read at most; there is no memory for more.
const MOST_BYTES: usize = 1 << 40;

/// How a run ended, and what it says on standard error of a name that the report hasn't.
#[derive(Drop)]
pub struct Ended {
    pub status: Status,
    pub said: Str,
}

/// Why there is no answer.
#[derive(Clone, Copy, Debug, PartialEq, Eq)]
enum Unread {
    ReadFault,
    NoMemory,
}

impl From<Failed> for Unread {
    ghost from_gives = { λ _ e. e ≡ unread.ReadFault };

    fn from(_: Failed) -> Self {
        Unread::ReadFault
    }
}

impl From<NoMemory> for Unread {
    ghost from_gives = { λ _ e. e ≡ unread.NoMemory };

    fn from(_: NoMemory) -> Self {
        Unread::NoMemory
    }
}

// The bytes of a file.
fn file_text<F: Files>(alloc: Global, files: &mut F, name: &Str) -> Result<Vec<u8>, Unread>
    requires { IsTrue (F.may_open files.old name.now) }
    ensures text { IfOk result (λ text. IfSome (F.holds files.old name.now) (λ held. held ≡ text.items)) }
    ensures fault { result ≡ Err Unread.ReadFault → Rose (F.faults files.old) (F.faults files.new) }
    ensures later { F.faults files.old ≤ F.faults files.new }
    ensures names { SameNames (F.may_open files.old) (F.may_open files.new) (F.holds files.old) (F.holds files.new) }
{
    files.open(name)?;
    match read_all(alloc, files, MOST_BYTES) {
        Ok(text) => Ok(text),
        Err(ReadEnd::ReadFault) => Err(Unread::ReadFault),
        Err(ReadEnd::TooLong) => Err(Unread::NoMemory),
        Err(ReadEnd::NoMemory) => Err(Unread::NoMemory),
    }
}

// Reads both files and finds the answer to them.
fn files_answer<F: Files>(alloc: Global, files: &mut F, command: Command) -> Result<Answer, Unread>
    requires source { IsTrue (F.may_open files.old command.file.now) }
    requires report { IsTrue (F.may_open files.old command.report.now) }
    ensures answer { IfOk result (λ a. AnswersFiles (view_command command.entry) (F.holds files.old command.entry.file.now) (F.holds files.old command.entry.report.now) (view_answer a)) }
    ensures fault { result ≡ Err Unread.ReadFault → Rose (F.faults files.old) (F.faults files.new) }
{
    let source = file_text(alloc, files, command.file)?;
    let text = file_text(alloc, files, command.report)?;
    let answer = answer_to(alloc, command, source.as_slice(), text.as_slice())?;
    Ok(answer)
}

fn end_with(alloc: Global, status: Status) -> Ended
    ensures status { result.status ≡ status }
    ensures said { result.said ≡ [] }
{
    Ended {
        status,
        said: Str::from_vec(Vec::new(alloc)),
    }
}

/// What a run of the program does: it reads the two files that the words name, a source and what is to be its report, and writes the view that is asked
/// for: of exactly the goals that pass. Where no goal has a name that is asked for, nothing is written, the status is that of usage, and the run says which
/// names there are.
pub fn view_main<F: Files, K: Sink>(
    alloc: Global,
    words: &[Str],
    files: &mut F,
    out: &mut K,
) -> Ended
    requires source { ForSome (file_named words.now) (λ name. IsTrue (F.may_open files.old name)) }
    requires report { ForSome (report_named words.now) (λ name. IsTrue (F.may_open files.old name)) }
    ensures answered { Answers (command words.now) (told F.holds files.old (file_named words.now)) (told F.holds files.old (report_named words.now)) (K.taken out.old) (K.taken out.new) result.status result.said }
    ensures read_fault { result.status ≡ Status.ReadFault → Rose (F.faults files.old) (F.faults files.new) }
    ensures write_fault { result.status ≡ Status.WriteFault → Rose (K.faults out.old) (K.faults out.new) }
    ensures usage_unwritten { command words.now ≡ None → out.new ≡ out.old }
    ensures unread_unwritten { result.status ≡ Status.ReadFault → out.new ≡ out.old }
    ensures no_memory_unwritten { result.status ≡ Status.NoMemory → out.new ≡ out.old }
{
    let Some(asked) = command_of(words) else {
        return end_with(alloc, Status::Usage);
    };
    let answer = match files_answer(alloc, files, asked) {
        Ok(answer) => answer,
        Err(Unread::ReadFault) => return end_with(alloc, Status::ReadFault),
        Err(Unread::NoMemory) => return end_with(alloc, Status::NoMemory),
    };
    let Answer { status, text, said } = answer;
    match write_all(out, text.as_slice()) {
        Ok(()) => Ended {
            status,
            said: Str::from_vec(said),
        },
        Err(_) => end_with(alloc, Status::WriteFault),
    }
}
