// The words of the command.
ghost use Rattle.std.specs.Prelude.{◌≡◌, ◌++◌, true, codes, is_some, if◌then◌else◌, Some, None};
ghost use Rattle.std.specs.Option.{option_copied, option_map};
ghost use Rattle.std.specs.Str.{is_utf8};
ghost use Rattle.wp_words.specs.Command as spec;
ghost use Rattle.wp_words.specs.CommandView.{name_of, view_asked, view_command, view_reading, view_wanted, ReadsOn};
ghost use Rattle.wp_words.specs.Reading.{all_read, go_on, reading_of, word_read};

use crate::numbers::number_in;
use c_kinds::Machdep;
use std::str::from_utf8;
use wp_base::Str;

/// What is wanted of goals: whether they are to be shown, and how far each is decided: how many rounds of instances a branch has, from
/// 0 to 4, and into how many branches it may come apart, from 1 to 65536.
#[derive(Clone, Copy)]
pub struct Wanted {
    pub shows_goals: bool,
    pub fuel: u32,
    pub branches: u32,
}

/// What the words ask for: the file to verify, its data model, and what is wanted of its goals.
#[derive(Clone, Copy)]
pub struct Command<'a> {
    pub file: &'a Str,
    pub model: Machdep,
    pub wanted: Wanted,
}

// What the options ask for.
#[derive(Clone, Copy)]
struct Asked {
    shows: bool,
    model: Option<Machdep>,
    fuel: Option<u32>,
    branches: Option<u32>,
}

// The options that take a value.
#[derive(Clone, Copy)]
enum Valued {
    Machdep,
    Fuel,
    Branches,
}

#[tactic(auto, using(crate::proofs::Texts::is_utf8_true, crate::proofs::Texts::is_utf8_false))]
fn is_text(bytes: &[u8]) -> bool
    ensures { result ≡ is_utf8 bytes.now }
{
    match from_utf8(bytes) {
        Ok(_) => true,
        Err(_) => false,
    }
}

fn begins_with_dash(bytes: &[u8]) -> bool
    ensures { result ≡ spec.begins_with_dash bytes.now }
{
    match bytes {
        [] => false,
        [first, ..] => *first == b'-',
    }
}

// The data model with this name.
fn model_named(name: &[u8]) -> Option<Machdep>
    ensures { result ≡ spec.model_named name.now }
{
    if name == b"x86_32".as_slice() {
        Some(Machdep::X86_32)
    } else if name == b"x86_64".as_slice() {
        Some(Machdep::X86_64)
    } else {
        None
    }
}

fn with_model(asked: Asked, model: Option<Machdep>) -> Option<Asked>
    ensures { option_map view_asked result ≡ spec.with_model (view_asked asked) model }
{
    let model = model?;
    if asked.model.is_some() {
        return None;
    }
    Some(Asked {
        shows: asked.shows,
        model: Some(model),
        fuel: asked.fuel,
        branches: asked.branches,
    })
}

fn with_fuel(asked: Asked, fuel: Option<u32>) -> Option<Asked>
    ensures { option_map view_asked result ≡ spec.with_fuel (view_asked asked) fuel }
{
    let fuel = fuel?;
    if asked.fuel.is_some() {
        return None;
    }
    Some(Asked {
        shows: asked.shows,
        model: asked.model,
        fuel: Some(fuel),
        branches: asked.branches,
    })
}

fn with_branches(asked: Asked, branches: Option<u32>) -> Option<Asked>
    ensures { option_map view_asked result ≡ spec.with_branches (view_asked asked) branches }
{
    let branches = branches?;
    if asked.branches.is_some() {
        return None;
    }
    Some(Asked {
        shows: asked.shows,
        model: asked.model,
        fuel: asked.fuel,
        branches: Some(branches),
    })
}

fn with_goals(asked: Asked) -> Option<Asked>
    ensures { option_map view_asked result ≡ spec.with_goals (view_asked asked) }
{
    if asked.shows {
        return None;
    }
    Some(Asked {
        shows: true,
        model: asked.model,
        fuel: asked.fuel,
        branches: asked.branches,
    })
}

// An option with its value.
fn with_value(asked: Asked, option: Valued, value: &[u8]) -> Option<Asked>
    ensures { option_map view_asked result ≡ spec.with_option (view_asked asked) (name_of option ++ (codes "=" ++ value.now)) }
{
    match option {
        Valued::Machdep => with_model(asked, model_named(value)),
        Valued::Fuel => with_fuel(asked, number_in(value, 0, 4)),
        Valued::Branches => with_branches(asked, number_in(value, 1, 65536)),
    }
}

// An option in one word.
fn with_option(asked: Asked, option: &[u8]) -> Option<Asked>
    ensures { option_map view_asked result ≡ spec.with_option (view_asked asked) option.now }
{
    if option == b"--goals".as_slice() {
        return with_goals(asked);
    }
    if let Some(name) = option.strip_prefix(b"--machdep=".as_slice()) {
        return with_model(asked, model_named(name));
    }
    if let Some(number) = option.strip_prefix(b"--fuel=".as_slice()) {
        return with_fuel(asked, number_in(number, 0, 4));
    }
    if let Some(number) = option.strip_prefix(b"--branches=".as_slice()) {
        return with_branches(asked, number_in(number, 1, 65536));
    }
    None
}

// Whether an option takes its value from the next word.
fn takes_value(word: &[u8]) -> bool
    ensures { result ≡ spec.takes_value word.now }
{
    word == b"--machdep".as_slice()
        || word == b"--fuel".as_slice()
        || word == b"--branches".as_slice()
}

// The option that does.
fn option_named(word: &[u8]) -> Valued
    requires { spec.takes_value word.now ≡ true }
    ensures { name_of result ≡ word.now }
{
    if word == b"--machdep".as_slice() {
        Valued::Machdep
    } else if word == b"--fuel".as_slice() {
        Valued::Fuel
    } else {
        Valued::Branches
    }
}

// What was asked for, with what stands for what wasn't.
fn wanted_by(asked: Asked) -> Wanted
    ensures { view_wanted result ≡ spec.wanted_by (view_asked asked) }
{
    Wanted {
        shows_goals: asked.shows,
        fuel: asked.fuel.unwrap_or(2),
        branches: asked.branches.unwrap_or(4096),
    }
}

// What was read so far: an option that wants its value, whether the options have ended, what they asked for, and the file.
#[derive(Clone, Copy)]
struct Reading<'a> {
    wants: Option<Valued>,
    ended: bool,
    asked: Asked,
    file: Option<&'a Str>,
}

fn with_asked<'a>(reading: Reading<'a>, asked: Option<Asked>) -> Option<Reading<'a>>
    ensures { ReadsOn result (go_on (option_map view_asked asked) (λ a. Some (reading_of None reading.entry.ended a (option_copied reading.entry.file)))) }
{
    let asked = asked?;
    Some(Reading {
        wants: None,
        ended: reading.ended,
        asked,
        file: reading.file,
    })
}

fn with_file<'a>(reading: Reading<'a>, file: &'a Str) -> Option<Reading<'a>>
    ensures { ReadsOn result (if is_some reading.entry.file then None else Some (reading_of (option_map name_of reading.entry.wants) reading.entry.ended (view_asked reading.entry.asked) (Some file.now))) }
{
    if reading.file.is_some() {
        return None;
    }
    Some(Reading {
        wants: reading.wants,
        ended: reading.ended,
        asked: reading.asked,
        file: Some(file),
    })
}

// One more word is read.
fn with_word<'a>(reading: Reading<'a>, word: &'a Str) -> Option<Reading<'a>>
    ensures { ReadsOn result (word_read (view_reading reading.entry) word.now) }
{
    let bytes = word.bytes();
    if !is_text(bytes) {
        return None;
    }
    if let Some(option) = reading.wants {
        return with_asked(reading, with_value(reading.asked, option, bytes));
    }
    if reading.ended {
        return with_file(reading, word);
    }
    if bytes == b"--".as_slice() {
        return Some(Reading {
            wants: None,
            ended: true,
            asked: reading.asked,
            file: reading.file,
        });
    }
    if takes_value(bytes) {
        return Some(Reading {
            wants: Some(option_named(bytes)),
            ended: false,
            asked: reading.asked,
            file: reading.file,
        });
    }
    if begins_with_dash(bytes) {
        return with_asked(reading, with_option(reading.asked, bytes));
    }
    with_file(reading, word)
}

// What was read, where all was.
fn command_read(reading: Reading<'_>) -> Option<Command<'_>>
    ensures { option_map view_command result ≡ all_read (view_reading reading.entry) }
{
    if reading.wants.is_some() {
        return None;
    }
    let file = reading.file?;
    if file.bytes() == b"-".as_slice() {
        return None;
    }
    Some(Command {
        file,
        model: reading.asked.model.unwrap_or(Machdep::X86_64),
        wanted: wanted_by(reading.asked),
    })
}

/// The command that the words are: `[--machdep NAME] [--fuel N] [--branches N] [--goals] [--] FILE`, the options and the file in any
/// order, each at most once. NAME is `x86_32` or `x86_64`, N one to five decimal digits: fuel 0 to 4, or else 2, branches 1 to 65536, or
/// else 4096. A value is the next word or stands behind `=`. `--` ends the options; only after it FILE may begin with `-`, and it
/// isn't `-` alone. All words are UTF-8.
#[tactic(auto, using(crate::proofs::Left::words_are_read, crate::proofs::Left::word_goes, crate::proofs::Left::word_stops, crate::proofs::Left::words_end))]
pub fn command_of(words: &[Str]) -> Option<Command<'_>>
    ensures { option_map view_command result ≡ spec.command_of words.now }
{
    let mut reading = Reading {
        wants: None,
        ended: false,
        asked: Asked {
            shows: false,
            model: None,
            fuel: None,
            branches: None,
        },
        file: None,
    };
    for word in words {
        reading = with_word(reading, word)?;
    }
    command_read(reading)
}
