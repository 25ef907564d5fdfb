ghost use Rattle.std.specs.Prelude.{◌≡◌, ◌↔◌, IsTrue, IfOk, length};
ghost use Rattle.std.specs.Ordering.{nat_cmp};
ghost use Rattle.std.specs.Cmp.Lexicographic.{slice_cmp};

use crate::memory::NoMemory;
use std::alloc::Global;
use std::cmp::Ordering;
use std::marker::Model;

/// A text that doesn't change. Contracts see it as the list of its bytes.
#[derive(Drop)]
pub struct Str {
    bytes: Vec<u8>,
}

impl Model for Str {
    ghost use Rattle.std.specs.Prelude.{List, ℕ};

    ghost Value = { List ℕ };

    ghost view = { λ text. text.bytes.items };
}

impl Str {
    /// A copy of these bytes.
    pub fn from_bytes(alloc: Global, bytes: &[u8]) -> Result<Str, NoMemory>
        ensures { IfOk result (λ text. text ≡ bytes.now) }
    {
        let bytes = Vec::from_slice(alloc, bytes)?;
        Ok(Str { bytes })
    }

    /// The bytes of a vector, which isn't copied.
    pub fn from_vec(bytes: Vec<u8>) -> Str
        ensures { result ≡ bytes.items }
    {
        Str { bytes }
    }

    pub fn bytes(&self) -> &[u8]
        ensures { result.now ≡ self.now }
    {
        self.bytes.as_slice()
    }

    pub fn copy(&self, alloc: Global) -> Result<Str, NoMemory>
        ensures { IfOk result (λ text. text ≡ self.now) }
    {
        Str::from_bytes(alloc, self.bytes())
    }

    /// Whether two texts have the same bytes.
    pub fn is_same(&self, other: &Str) -> bool
        ensures { IsTrue result ↔ (self.now ≡ other.now) }
    {
        self.bytes() == other.bytes()
    }

    /// The order of two texts, by their first byte that differs; a text comes before those that it begins.
    pub fn compare(&self, other: &Str) -> Ordering
        ensures { result ≡ slice_cmp nat_cmp self.now other.now }
    {
        self.bytes().cmp(other.bytes())
    }
}
