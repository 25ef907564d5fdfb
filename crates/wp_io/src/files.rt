ghost use Rattle.std.specs.Prelude.{◌≡◌, ◌<◌, ℕ, List, length, Bool, Option, Some, IsTrue, IfSome, OnOk, OnErr};
ghost use Rattle.std.specs.Io.{ReadsAtMost};
ghost use Rattle.std.specs.Io.KnownBytes.{ReadConsumes};
ghost use Rattle.wp_io.specs.Faults.{HasCause};
ghost use Rattle.wp_io.specs.Reads.{SameNames, SameOpen};

use wp_base::Str;

/// The call met a fault, which its object has counted.
#[derive(Clone, Copy, Debug, PartialEq, Eq)]
pub struct Failed;

/// Files, opened by name and read from their start, one at a time.
pub trait Files {
    /// What each name holds, where that is told. It never changes.
    ghost holds: { Self → List ℕ → Option (List ℕ) };

    /// What is left of the open file, where that is told.
    ghost left: { Self → Option (List ℕ) };

    /// Whether a file is open.
    ghost is_open: { Self → Bool };

    /// Whether a name may be opened. It never changes, and keeps code that knows nothing of the
    /// form from opening a name that its caller didn't allow.
    ghost may_open: { Self → List ℕ → Bool };

    /// How many faults there were, up to the greatest `u64`.
    ghost faults: { Self → ℕ };

    /// Opens a file from its start, in the place of the one that was open.
    fn open(&mut self, name: &Str) -> Result<(), Failed>
        requires { IsTrue (may_open self.old name.now) }
        ensures opened { OnOk result (IsTrue (is_open self.new)) }
        ensures whole { OnOk result
            (IfSome (holds self.old name.now) (λ text. left self.new ≡ Some text)) }
        ensures unopened { OnErr result
            (SameOpen (is_open self.old) (is_open self.new) (left self.old) (left self.new)) }
        ensures same { SameNames (may_open self.old) (may_open self.new)
            (holds self.old) (holds self.new) }
        ensures cause { HasCause (faults self.old) (faults self.new) result };

    /// Reads the next bytes of the open file, and says how many: none only at its end.
    fn read(&mut self, into: &mut [u8]) -> Result<usize, Failed>
        requires is_open { IsTrue (is_open self.old) }
        requires room { 0 < length into.old }
        ensures stays_open { IsTrue (is_open self.new) }
        ensures bound { ReadsAtMost result into.new }
        ensures bytes { ReadConsumes (left self.old) (left self.new) result into.new }
        ensures same { SameNames (may_open self.old) (may_open self.new)
            (holds self.old) (holds self.new) }
        ensures cause { HasCause (faults self.old) (faults self.new) result };
}
