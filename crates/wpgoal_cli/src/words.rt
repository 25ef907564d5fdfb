// The words of the command.
ghost use Rattle.std.specs.Prelude.{◌≡◌};
ghost use Rattle.std.specs.Option.{option_map};
ghost use Rattle.wpgoal_cli.specs.Command as spec;
ghost use Rattle.wpgoal_cli.specs.View.{view_command};

use c_kinds::Machdep;
use wp_base::Str;
use wp_words::{Wanted, command_of as verify_words};

/// What is wanted of each formula: its normal form, or the verdict on it, in a data model and as far as is wanted.
#[derive(Clone, Copy)]
pub enum Wish {
    Normal,
    Verdict(Machdep, Wanted),
}

/// What the words ask for: the file, and what is wanted of its formulas.
#[derive(Clone, Copy)]
pub struct Asked<'a> {
    pub file: &'a Str,
    pub wish: Wish,
}

fn begins_with_dash(bytes: &[u8]) -> bool
    ensures { result ≡ spec.begins_with_dash bytes.now }
{
    match bytes {
        [] => false,
        [first, ..] => *first == b'-',
    }
}

fn is_normal(word: &Str) -> bool
    ensures { result ≡ spec.is_normal word.now }
{
    word.bytes() == b"--normal".as_slice()
}

fn normal_of(file: &Str) -> Option<Asked<'_>>
    ensures { option_map view_command result ≡ spec.normal_of file.now }
{
    if begins_with_dash(file.bytes()) {
        return None;
    }
    Some(Asked {
        file,
        wish: Wish::Normal,
    })
}

fn verdicts_of(words: &[Str]) -> Option<Asked<'_>>
    ensures { option_map view_command result ≡ spec.verdicts_of words.now }
{
    let command = verify_words(words)?;
    Some(Asked {
        file: command.file,
        wish: Wish::Verdict(command.model, command.wanted),
    })
}

/// The command that the words are: a file, and `--normal` before or behind it; or the words of a command that verifies a file.
pub fn command_of(words: &[Str]) -> Option<Asked<'_>>
    ensures { option_map view_command result ≡ spec.command_of words.now }
{
    if words.len() != 2 {
        return verdicts_of(words);
    }
    if is_normal(&words[0]) {
        return normal_of(&words[1]);
    }
    if is_normal(&words[1]) {
        return normal_of(&words[0]);
    }
    verdicts_of(words)
}
