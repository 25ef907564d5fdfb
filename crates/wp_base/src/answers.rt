ghost use Rattle.std.specs.Prelude.{◌≡◌};
ghost use Rattle.wp_base.specs.Answers.{code_of, text_of, number_of, name_of};
ghost use Rattle.wp_base.specs.declared.answers.Stop.TheVariants as stop;

use crate::memory::NoMemory;
use std::alloc::{AllocError, AllocFailed};

/// A line of the text, from 1.
pub type Line = u32;

/// Why a text is refused.
#[derive(Clone, Copy, Debug, PartialEq, Eq)]
pub enum Rule {
    Lexical,
    Word,
    Syntax,
    Limit,
    Name,
    Typing,
    Shape,
    Unsequenced,
    NoBody,
    /// The program is one that isn't verified yet.
    Unbuilt,
}

impl Rule {
    /// The number of the rule in a refusal.
    pub fn number(self) -> u8
        ensures { result ≡ number_of self }
    {
        match self {
            Rule::Lexical => 1,
            Rule::Word => 2,
            Rule::Syntax => 3,
            Rule::Limit => 4,
            Rule::Name => 5,
            Rule::Typing => 6,
            Rule::Shape => 7,
            Rule::Unsequenced => 8,
            Rule::NoBody => 9,
            Rule::Unbuilt => 10,
        }
    }

    /// The name of the rule in a refusal.
    pub fn name(self) -> &'static str
        ensures { result.now ≡ name_of self }
    {
        match self {
            Rule::Lexical => "lexical",
            Rule::Word => "word",
            Rule::Syntax => "syntax",
            Rule::Limit => "limit",
            Rule::Name => "name",
            Rule::Typing => "type",
            Rule::Shape => "shape",
            Rule::Unsequenced => "unsequenced",
            Rule::NoBody => "no_body",
            Rule::Unbuilt => "unbuilt",
        }
    }
}

/// The one fault of a text: the rule that it breaks, and where.
#[derive(Clone, Copy, Debug, PartialEq, Eq)]
pub struct Refusal {
    pub rule: Rule,
    pub line: Line,
}

/// Why a text wasn't read.
#[derive(Clone, Copy, Debug, PartialEq, Eq)]
pub enum Stop {
    Refused(Refusal),
    NoMemory,
}

impl From<NoMemory> for Stop {
    ghost from_gives = { λ _ end. end ≡ stop.NoMemory };

    fn from(_: NoMemory) -> Self {
        Stop::NoMemory
    }
}

impl From<AllocError> for Stop {
    ghost from_gives = { λ _ end. end ≡ stop.NoMemory };

    fn from(_: AllocError) -> Self {
        Stop::NoMemory
    }
}

impl<T: Drop> From<AllocFailed<T>> for Stop {
    ghost from_gives = { λ _ end. end ≡ stop.NoMemory };

    fn from(_: AllocFailed<T>) -> Self {
        Stop::NoMemory
    }
}

/// How a run of the program ended.
#[derive(Clone, Copy, Debug, PartialEq, Eq)]
pub enum Status {
    AllProved,
    SomeUnknown,
    Refused,
    Usage,
    ReadFault,
    WriteFault,
    NoMemory,
}

impl Status {
    /// The exit status.
    pub fn code(&self) -> u8
        ensures { result ≡ code_of self.now }
    {
        match self {
            Status::AllProved => 0,
            Status::SomeUnknown => 1,
            Status::Refused => 2,
            Status::Usage => 3,
            Status::ReadFault => 4,
            Status::WriteFault => 5,
            Status::NoMemory => 6,
        }
    }

    /// What is said on standard error; empty where the report or the refusal says all.
    pub fn text(&self) -> &'static str
        ensures { result.now ≡ text_of self.now }
    {
        match self {
            Status::AllProved | Status::SomeUnknown | Status::Refused => "",
            Status::Usage => "usage: wp [--machdep NAME] [--goals] FILE",
            Status::ReadFault => "wp: cannot read",
            Status::WriteFault => "wp: cannot write",
            Status::NoMemory => "wp: out of memory",
        }
    }
}
