ghost use Rattle.std.specs.Prelude.{◌≡◌, ◌≢◌, ◌≤◌, IsTrue, IfOk, IfSome, vec_len, Err};
ghost use Rattle.wp_io.specs.Faults.{Rose};
ghost use Rattle.wp_io.specs.Reads.{SameNames, TakesAll, TakesMore, TakesAtMost};
ghost use Rattle.wp_io.specs.declared.reading.ReadEnd.TheVariants as end;

use crate::{Failed, Files};
use std::alloc::{AllocError, Global};
use thiserror::Error;

/// Why a text wasn't read to its end.
#[derive(Clone, Copy, Debug, PartialEq, Eq, Error)]
pub enum ReadEnd {
    #[error("cannot read")]
    ReadFault,
    #[error("text too long")]
    TooLong,
    #[error("out of memory")]
    NoMemory,
}

impl From<Failed> for ReadEnd {
    ghost from_gives = { λ _ e. e ≡ end.ReadFault };

    fn from(_: Failed) -> Self {
        ReadEnd::ReadFault
    }
}

impl From<AllocError> for ReadEnd {
    ghost from_gives = { λ _ e. e ≡ end.NoMemory };

    fn from(_: AllocError) -> Self {
        ReadEnd::NoMemory
    }
}

// How many bytes one read asks for.
const PIECE: usize = 4096;

/// Reads the open file to its end, if at most `limit` bytes are left. Each turn but the last takes a
/// byte at least, so there are at most `limit + 1`.
pub fn read_all<F: Files>(alloc: Global, files: &mut F, limit: usize) -> Result<Vec<u8>, ReadEnd>
    requires { IsTrue (F.is_open files.old) }

    // All that was left of the open file.
    ensures whole { IfOk result (λ bytes. IfSome (F.left files.old) (λ text. bytes.items ≡ text)) }
    ensures to_end { IfOk result
        (λ bytes. TakesAll (F.left files.old) (F.left files.new) bytes.items) }
    ensures within { IfOk result (λ bytes. vec_len bytes ≤ limit) }

    // `TooLong` exactly where more bytes than the limit were taken.
    ensures too_long { result ≡ Err ReadEnd.TooLong
        → TakesMore (F.left files.old) (F.left files.new) limit }
    ensures not_too_long { result ≢ Err ReadEnd.TooLong
        → TakesAtMost (F.left files.old) (F.left files.new) limit }
    ensures fault { result ≡ Err ReadEnd.ReadFault
        → Rose (F.faults files.old) (F.faults files.new) }

    // Whatever the answer.
    ensures later { F.faults files.old ≤ F.faults files.new }
    ensures stays_open { IsTrue (F.is_open files.new) }
    ensures same { SameNames (F.may_open files.old) (F.may_open files.new)
        (F.holds files.old) (F.holds files.new) }
{
    let mut text = Vec::new(alloc);
    let mut piece = [0u8; PIECE];
    loop {
        let count = files.read(&mut piece)?;
        if count == 0 {
            return Ok(text);
        }
        if count > limit - text.len() {
            return Err(ReadEnd::TooLong);
        }
        text.extend_from_slice(&piece[..count])?;
    }
}
