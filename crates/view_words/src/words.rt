// The words of the command.
ghost use Rattle.std.specs.Prelude.{◌≡◌, Some};
ghost use Rattle.std.specs.Option.{option_map};
ghost use Rattle.view_words.specs.Command as spec;
ghost use Rattle.wp_words.specs.Command as common;
ghost use Rattle.view_words.specs.CommandView.{view_asked, view_command, view_operands, with_operand as operand};

use crate::commands::{Command, Form};
use report_read::after;
use report_shown::{Only, Wanted};
use wp_base::Str;

/// The options that take a value.
#[derive(Clone, Copy, Debug, PartialEq, Eq)]
enum Key {
    Function,
    Check,
    Verdict,
}

// What the options ask for.
#[derive(Clone, Copy)]
struct Asked<'a> {
    wanted: Wanted<'a>,
    form: Option<Form>,
    color: bool,
}

// The words that are no options.
#[derive(Clone, Copy)]
enum Operands<'a> {
    Nothing,
    One(&'a Str),
    Two(&'a Str, &'a Str),
}

fn begins_with_dash(bytes: &[u8]) -> bool
    ensures { result ≡ common.begins_with_dash bytes.now }
{
    match bytes {
        [] => false,
        [first, ..] => *first == b'-',
    }
}

fn key_of(word: &[u8]) -> Option<Key>
    ensures { result ≡ spec.key_of word.now }
{
    if word == b"--fct".as_slice() {
        Some(Key::Function)
    } else if word == b"--check".as_slice() {
        Some(Key::Check)
    } else if word == b"--only".as_slice() {
        Some(Key::Verdict)
    } else {
        None
    }
}

fn form_of(option: &[u8]) -> Option<Form>
    ensures { result ≡ spec.form_of option.now }
{
    if option == b"--text".as_slice() {
        Some(Form::Text)
    } else if option == b"--html".as_slice() {
        Some(Form::Html)
    } else if option == b"--json".as_slice() {
        Some(Form::Json)
    } else if option == b"--csv".as_slice() {
        Some(Form::Csv)
    } else {
        None
    }
}

fn only_of(word: &[u8]) -> Option<Only>
    ensures { result ≡ spec.only_of word.now }
{
    if word == b"unknown".as_slice() {
        Some(Only::Unknown)
    } else if word == b"proved".as_slice() {
        Some(Only::Proved)
    } else {
        None
    }
}

fn with_function<'a>(asked: Asked<'a>, name: &'a [u8]) -> Option<Asked<'a>>
    ensures { option_map view_asked result ≡ spec.with_function (view_asked asked.entry) name.now }
{
    if asked.wanted.function.is_some() {
        return None;
    }
    let wanted = Wanted {
        function: Some(name),
        ..asked.wanted
    };
    Some(Asked { wanted, ..asked })
}

fn with_check<'a>(asked: Asked<'a>, name: &'a [u8]) -> Option<Asked<'a>>
    ensures { option_map view_asked result ≡ spec.with_check (view_asked asked.entry) name.now }
{
    if asked.wanted.check.is_some() {
        return None;
    }
    let wanted = Wanted {
        check: Some(name),
        ..asked.wanted
    };
    Some(Asked { wanted, ..asked })
}

fn is_all(only: Only) -> bool
    ensures { result ≡ spec.is_all only }
{
    match only {
        Only::All => true,
        Only::Proved | Only::Unknown => false,
    }
}

fn with_only(asked: Asked<'_>, only: Option<Only>) -> Option<Asked<'_>>
    ensures { option_map view_asked result ≡ spec.with_only (view_asked asked.entry) only }
{
    let only = only?;
    if !is_all(asked.wanted.only) {
        return None;
    }
    let wanted = Wanted {
        only,
        ..asked.wanted
    };
    Some(Asked { wanted, ..asked })
}

fn with_value<'a>(asked: Asked<'a>, key: Key, value: &'a [u8]) -> Option<Asked<'a>>
    ensures { option_map view_asked result ≡ spec.with_value (view_asked asked.entry) key value.now }
{
    match key {
        Key::Function => with_function(asked, value),
        Key::Check => with_check(asked, value),
        Key::Verdict => with_only(asked, only_of(value)),
    }
}

fn with_form(asked: Asked<'_>, form: Option<Form>) -> Option<Asked<'_>>
    ensures { option_map view_asked result ≡ spec.with_form (view_asked asked.entry) form }
{
    let form = form?;
    if asked.form.is_some() {
        return None;
    }
    Some(Asked {
        form: Some(form),
        ..asked
    })
}

fn with_color(asked: Asked<'_>) -> Option<Asked<'_>>
    ensures { option_map view_asked result ≡ spec.with_color (view_asked asked.entry) }
{
    if asked.color {
        return None;
    }
    Some(Asked {
        color: true,
        ..asked
    })
}

fn with_option<'a>(asked: Asked<'a>, option: &'a [u8]) -> Option<Asked<'a>>
    ensures { option_map view_asked result ≡ spec.with_option (view_asked asked.entry) option.now }
{
    if option == b"--color".as_slice() {
        return with_color(asked);
    }
    if let Some(name) = after(b"--fct=", option) {
        return with_function(asked, name);
    }
    if let Some(name) = after(b"--check=", option) {
        return with_check(asked, name);
    }
    if let Some(word) = after(b"--only=", option) {
        return with_only(asked, only_of(word));
    }
    with_form(asked, form_of(option))
}

fn with_operand<'a>(found: Operands<'a>, word: &'a Str) -> Option<Operands<'a>>
    ensures { option_map view_operands result ≡ operand (view_operands found.entry) word.now }
{
    match found {
        Operands::Nothing => Some(Operands::One(word)),
        Operands::One(file) => Some(Operands::Two(file, word)),
        Operands::Two(_, _) => None,
    }
}

fn is_dash(word: &Str) -> bool
    ensures { result ≡ spec.is_dash word.now }
{
    word.bytes() == b"-".as_slice()
}

fn whole_command<'a>(found: Operands<'a>, asked: Asked<'a>) -> Option<Command<'a>>
    ensures { option_map view_command result ≡ spec.command (spec.files_in (view_operands found.entry)) (Some (view_asked asked.entry)) }
{
    match found {
        Operands::Nothing | Operands::One(_) => None,
        Operands::Two(file, report) => {
            if is_dash(file) || is_dash(report) {
                return None;
            }
            Some(Command {
                file,
                report,
                wanted: asked.wanted,
                form: asked.form.unwrap_or(Form::Text),
                color: asked.color,
            })
        }
    }
}

/// The command that the words are: `[--fct NAME] [--check NAME] [--only unknown|proved] [--text|--html|--json|--csv] [--color] [--] FILE REPORT`, the
/// options before, between or behind the two files, each at most once, and one form at most. A value is the next word or stands behind `=`. `--` ends the
/// options; only after it a file may begin with `-`, and it isn't `-` alone.
#[tactic(auto, using(crate::proofs::Reading::words_are_read))]
pub fn command_of(words: &[Str]) -> Option<Command<'_>>
    ensures { option_map view_command result ≡ spec.command_of words.now }
{
    let mut found = Operands::Nothing;
    let mut asked = Asked {
        wanted: Wanted {
            function: None,
            check: None,
            only: Only::All,
        },
        form: None,
        color: false,
    };
    let mut wants = None;
    let mut ended = false;
    for word in words {
        let bytes = word.bytes();
        if let Some(key) = wants {
            asked = with_value(asked, key, bytes)?;
            wants = None;
        } else if !ended && bytes == b"--".as_slice() {
            ended = true;
        } else if !ended && key_of(bytes).is_some() {
            wants = key_of(bytes);
        } else if !ended && begins_with_dash(bytes) {
            asked = with_option(asked, bytes)?;
        } else {
            found = with_operand(found, word)?;
        }
    }
    if wants.is_some() {
        return None;
    }
    whole_command(found, asked)
}
