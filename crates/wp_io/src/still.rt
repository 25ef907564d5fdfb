// Files and a sink that never fail: their counts of faults are 0 for ever.
ghost use Rattle.std.specs.Prelude.{◌≡◌, ◌+◌, ◌-◌, ◌^◌, min, length, drop, true, false, Some, None, Ok};

use crate::pieces::{copy_piece, rest_from};
use crate::{Failed, Files, Sink};
use wp_base::Str;

/// One text, which every name holds.
#[derive(Drop)]
pub struct StillFiles {
    pub text: Str,
    /// How many bytes of the text were read since it was opened.
    pub at: usize,
    /// Whether it was opened.
    pub opened: bool,
}

impl StillFiles {
    /// Files with this text, none of them open.
    pub fn new(text: Str) -> StillFiles
        ensures { result ≡ record { text = text; at = 0; opened = false } }
    {
        StillFiles {
            text,
            at: 0,
            opened: false,
        }
    }
}

impl Files for StillFiles {
    ghost holds = { λ files _. Some files.text };

    ghost left = { λ files. Some (drop files.at files.text) };

    ghost is_open = { λ files. files.opened };

    ghost may_open = { λ _ _. true };

    ghost faults = { λ _. 0 };

    fn open(&mut self, _name: &Str) -> Result<(), Failed> {
        self.at = 0;
        self.opened = true;
        Ok(())
    }

    fn read(&mut self, into: &mut [u8]) -> Result<usize, Failed> {
        let rest = rest_from(self.text.bytes(), self.at);
        let count = copy_piece(rest, into, usize::MAX);
        self.at += count;
        Ok(count)
    }
}

/// A sink that keeps nothing of what it is given but the number of bytes.
#[derive(Clone, Copy, Debug, PartialEq, Eq)]
pub struct StillSink {
    /// How many bytes were given, up to the greatest `u64`.
    pub given: u64,
}

impl StillSink {
    /// A sink that was given nothing.
    pub fn new() -> StillSink
        ensures { result.given ≡ 0 }
    {
        StillSink { given: 0 }
    }
}

impl Sink for StillSink {
    ghost taken = { λ _. None };

    ghost faults = { λ _. 0 };

    fn write(&mut self, bytes: &[u8]) -> Result<usize, Failed>
        ensures all { result ≡ Ok (length bytes.now) }
        ensures counted { self.new.given ≡ min (self.old.given + length bytes.now) (2 ^ 64 - 1) }
    {
        self.given = self.given.saturating_add(bytes.len() as u64);
        Ok(bytes.len())
    }
}
