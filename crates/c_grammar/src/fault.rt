// Why tokens weren't read.
ghost use Rattle.std.specs.Prelude.{◌≡◌};
ghost use Rattle.c_grammar.specs.declared.fault.Fault.TheVariants as fault;

use c_syntax::Token;
use std::alloc::{AllocError, AllocFailed};
use wp_base::NoMemory;

/// What a reader answers: what it read and the tokens after it, or why it read nothing.
pub type Read<'a, T> = Result<(T, &'a [Token]), Fault>;

/// Why tokens weren't read.
#[derive(Clone, Copy, Debug, PartialEq, Eq)]
pub enum Fault {
    /// They spell nothing of the kind that is wanted.
    Syntax,
    NoMemory,
}

impl From<NoMemory> for Fault {
    ghost from_gives = { λ _ end. end ≡ fault.NoMemory };

    fn from(_: NoMemory) -> Self {
        Fault::NoMemory
    }
}

impl From<AllocError> for Fault {
    ghost from_gives = { λ _ end. end ≡ fault.NoMemory };

    fn from(_: AllocError) -> Self {
        Fault::NoMemory
    }
}

impl<T: Drop> From<AllocFailed<T>> for Fault {
    ghost from_gives = { λ _ end. end ≡ fault.NoMemory };

    fn from(_: AllocFailed<T>) -> Self {
        Fault::NoMemory
    }
}
