// The top call.
ghost use Rattle.std.specs.Prelude.{◌≡◌, ◌↔◌, ◌≤◌, None, IsTrue, IfOk, Err};
ghost use Rattle.std.specs.Option.{ForSome};
ghost use Rattle.wp_io.specs.Faults.{Rose};
ghost use Rattle.wpgoal_cli.specs.Command.{command_of as command, file_named as named, wish_in};
ghost use Rattle.wpgoal_cli.specs.View.{view_wish};
ghost use Rattle.wpgoal_cli.specs.Top.{AnswersFile, WritesAnswer, told};
ghost use Rattle.wpgoal_cli.specs.declared.top.Unread.TheVariants as unread;

use crate::lines::{Answer, text_answer};
use crate::words::{Wish, command_of};
use std::alloc::Global;
use wp_base::{NoMemory, Status, Str};
use wp_io::{Failed, Files, ReadEnd, Sink, read_all, write_all};

// How many bytes are read at most; there is no memory for more.
const MOST_BYTES: usize = 1 << 40;

/// Why there is no answer.
#[derive(Clone, Copy, Debug, PartialEq, Eq)]
enum Unread {
    ReadFault,
    NoMemory,
}

impl From<Failed> for Unread {
    ghost from_gives = { λ _ e. e ≡ unread.ReadFault };

    fn from(_: Failed) -> Self {
        Unread::ReadFault
    }
}

impl From<NoMemory> for Unread {
    ghost from_gives = { λ _ e. e ≡ unread.NoMemory };

    fn from(_: NoMemory) -> Self {
        Unread::NoMemory
    }
}

// Reads a file and finds the answer to its text.
fn file_answer<F: Files>(
    alloc: Global,
    files: &mut F,
    name: &Str,
    wish: Wish,
) -> Result<Answer, Unread>
    requires { IsTrue (F.may_open files.old name.now) }
    ensures answer { IfOk result (λ answer. AnswersFile (view_wish wish) (F.holds files.old name.now) answer.status answer.text) }
    ensures fault { result ≡ Err Unread.ReadFault → Rose (F.faults files.old) (F.faults files.new) }
{
    files.open(name)?;
    match read_all(alloc, files, MOST_BYTES) {
        Ok(text) => {
            let answer = text_answer(alloc, wish, text.as_slice())?;
            Ok(answer)
        }
        Err(ReadEnd::ReadFault) => Err(Unread::ReadFault),
        Err(ReadEnd::TooLong) => Err(Unread::NoMemory),
        Err(ReadEnd::NoMemory) => Err(Unread::NoMemory),
    }
}

/// What a run of the program does: it finds the file that the words name, reads it, finds the answer to its text, and writes
/// it: a line for each line of the text, or the line of the first one that is no formula.
pub fn wpgoal_main<F: Files, K: Sink>(
    alloc: Global,
    words: &[Str],
    files: &mut F,
    out: &mut K,
) -> Status
    requires { ForSome (named words.now) (λ name. IsTrue (F.may_open files.old name)) }
    ensures usage { (result ≡ Status.Usage) ↔ (command words.now ≡ None) }
    ensures answered { WritesAnswer (wish_in words.now) (told F.holds files.old words.now) (K.taken out.old) (K.taken out.new) result }
    ensures read_fault { result ≡ Status.ReadFault → Rose (F.faults files.old) (F.faults files.new) }
    ensures write_fault { result ≡ Status.WriteFault → Rose (K.faults out.old) (K.faults out.new) }
    ensures unread_unwritten { result ≡ Status.ReadFault → out.new ≡ out.old }
    ensures no_memory_unwritten { result ≡ Status.NoMemory → out.new ≡ out.old }
{
    let Some(asked) = command_of(words) else {
        return Status::Usage;
    };
    let answer = match file_answer(alloc, files, asked.file, asked.wish) {
        Ok(answer) => answer,
        Err(Unread::ReadFault) => return Status::ReadFault,
        Err(Unread::NoMemory) => return Status::NoMemory,
    };
    match write_all(out, answer.text.bytes()) {
        Ok(()) => answer.status,
        Err(_) => Status::WriteFault,
    }
}
