// The top call.
ghost use Rattle.std.specs.Prelude.{◌≡◌, ◌↔◌, ◌≤◌, ℕ, List, None, Some, IsTrue, IfOk};
ghost use Rattle.std.specs.Option.{ForSome};
ghost use Rattle.wp_io.specs.Faults.{Rose};
ghost use Rattle.wp_io.specs.Reads.{SameNames};
ghost use Rattle.wp_words.specs.Command.{command_of as command, file_named as named, model_asked as model, wanted_of as wanted_by};
ghost use Rattle.wp_words.specs.CommandView.{view_wanted};
ghost use Rattle.wp_cli.specs.Top.{AnswersFile, IsAnsweredBy, ReadsEnough, WritesAnswer, WritesFront, told};
ghost use Rattle.wp_cli.specs.declared.top.Unread.TheVariants as unread;

use crate::answer::{Answer, text_answer, too_long_answer};
use c_kinds::Machdep;
use c_lexer::MOST_BYTES;
use std::alloc::Global;
use wp_base::{NoMemory, Status, Str};
use wp_io::{Failed, Files, ReadEnd, Sink, read_all, write_all};
use wp_words::{Wanted, command_of};

/// Why there is no answer.
#[derive(Clone, Copy, Debug, PartialEq, Eq)]
enum Unread {
    ReadFault,
    NoMemory,
}

impl From<Failed> for Unread {
    ghost from_gives = { λ _ e. e ≡ unread.ReadFault };

    fn from(_: Failed) -> Self {
        Unread::ReadFault
    }
}

impl From<NoMemory> for Unread {
    ghost from_gives = { λ _ e. e ≡ unread.NoMemory };

    fn from(_: NoMemory) -> Self {
        Unread::NoMemory
    }
}

// Reads a file and finds the answer to its text with this data model, with its goals as they are wanted.
fn file_answer<F: Files>(
    alloc: Global,
    files: &mut F,
    name: &Str,
    machdep: Machdep,
    wanted: Wanted,
) -> Result<Answer, Unread>
    requires { IsTrue (F.may_open files.old name.now) }
    ensures answer { IfOk result (λ answer. AnswersFile machdep (view_wanted wanted) (F.holds files.old name.now) answer.status answer.text) }
    ensures read { IfOk result (λ answer. ReadsEnough answer.status (F.holds files.old name.now) (F.left files.new)) }
    ensures fault { result ≡ Err Unread.ReadFault → Rose (F.faults files.old) (F.faults files.new) }
    ensures later { F.faults files.old ≤ F.faults files.new }
    ensures names { SameNames (F.may_open files.old) (F.may_open files.new) (F.holds files.old) (F.holds files.new) }
{
    files.open(name)?;
    match read_all(alloc, files, MOST_BYTES) {
        Ok(text) => {
            let answer = text_answer(alloc, machdep, text.as_slice(), wanted)?;
            Ok(answer)
        }
        Err(ReadEnd::TooLong) => {
            let answer = too_long_answer(alloc)?;
            Ok(answer)
        }
        Err(ReadEnd::ReadFault) => Err(Unread::ReadFault),
        Err(ReadEnd::NoMemory) => Err(Unread::NoMemory),
    }
}

/// What a run of the program does: it finds the file that the words name, reads it, finds the answer
/// to its text, a report or a refusal, and writes it. The answer to an earlier step is given: words,
/// opening and reading, faults of the text, goals, writing. `NoMemory` may stand before any but the
/// first and the last.
///
/// A command is `[--machdep NAME] [--fuel N] [--branches N] [--goals] [--] FILE`, the options and the file in any order, each at most
/// once. NAME is `x86_32` or `x86_64`, or else `x86_64`; fuel is 0 to 4, or else 2; branches are 1 to 65536, or else 4096. A value is the
/// next word or stands behind `=`. `--` ends the options, only after it FILE may begin with `-`, and it isn't `-` alone; all words are UTF-8.
/// Under `--goals` each goal's line in the report is followed by a line of two spaces and its text.
pub fn wp_main<F: Files, K: Sink>(
    alloc: Global,
    words: &[Str],
    files: &mut F,
    out: &mut K,
) -> Status
    requires { ForSome (named words.now) (λ name. IsTrue (F.may_open files.old name)) }

    // The words.
    ensures usage { (result ≡ Status.Usage) ↔ (command words.now ≡ None) }
    ensures nothing_opened { result ≡ Status.Usage → files.new ≡ files.old }
    ensures usage_unwritten { result ≡ Status.Usage → out.new ≡ out.old }

    // How much was read.
    ensures read { ReadsEnough result (told F.holds files.old words.now) (F.left files.new) }

    // What is written is the answer to the text that was read: the report of the program that it spells, of which all that the report
    // claims is so, or the line of its fault.
    ensures answered { WritesAnswer (model words.now) (wanted_by words.now) (told F.holds files.old words.now) (K.taken out.old) (K.taken out.new) result }

    // Faults.
    ensures read_fault { result ≡ Status.ReadFault → Rose (F.faults files.old) (F.faults files.new) }
    ensures unread_unwritten { result ≡ Status.ReadFault → out.new ≡ out.old }
    ensures write_fault { result ≡ Status.WriteFault → Rose (K.faults out.old) (K.faults out.new) }
    ensures front { result ≡ Status.WriteFault → WritesFront (model words.now) (wanted_by words.now) (told F.holds files.old words.now) (K.taken out.old) (K.taken out.new) }
    ensures no_memory_unwritten { result ≡ Status.NoMemory → out.new ≡ out.old }

    // It may be called again: names and what they hold are as before, and no count of faults falls.
    ensures names { SameNames (F.may_open files.old) (F.may_open files.new) (F.holds files.old) (F.holds files.new) }
    ensures later_files { F.faults files.old ≤ F.faults files.new }
    ensures later_out { K.faults out.old ≤ K.faults out.new }

    // A command whose file tells its text is answered, unless a fault was counted or memory ran out.
    ensures complete { (text : List ℕ) → told F.holds files.old words.now ≡ Some text
        → (Rose (F.faults files.old) (F.faults files.new) → ⊥) → (Rose (K.faults out.old) (K.faults out.new) → ⊥)
        → IsAnsweredBy (model words.now) text result }
{
    let Some(command) = command_of(words) else {
        return Status::Usage;
    };
    let answer = match file_answer(alloc, files, command.file, command.model, command.wanted) {
        Ok(answer) => answer,
        Err(Unread::ReadFault) => return Status::ReadFault,
        Err(Unread::NoMemory) => return Status::NoMemory,
    };
    match write_all(out, answer.text.bytes()) {
        Ok(()) => answer.status,
        Err(_) => Status::WriteFault,
    }
}
