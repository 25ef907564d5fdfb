ghost use Rattle.std.specs.Prelude.{◌<◌, ◌≤◌, ℕ, List, length, Option, IfOk};
ghost use Rattle.std.specs.Io.KnownBytes.{WriteAppends};
ghost use Rattle.wp_io.specs.Faults.{HasCause};

use crate::Failed;

/// What takes bytes.
pub trait Sink {
    /// The bytes that were taken, where that is told.
    ghost taken: { Self → Option (List ℕ) };

    /// How many faults there were, up to the greatest `u64`.
    ghost faults: { Self → ℕ };

    /// Takes the first of these bytes, at least one, and says how many. To take none is a fault.
    fn write(&mut self, bytes: &[u8]) -> Result<usize, Failed>
        requires { 0 < length bytes.now }
        ensures some { IfOk result (λ count. 0 < count) }
        ensures bound { IfOk result (λ count. count ≤ length bytes.now) }
        ensures bytes { WriteAppends (taken self.old) (taken self.new) result bytes.now }
        ensures cause { HasCause (faults self.old) (faults self.new) result };
}
