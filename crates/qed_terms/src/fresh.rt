// Fresh names, counted for each base name.
ghost use Rattle.std.specs.Prelude.{◌≡◌, ◌<◌, ◌≤◌, ◌+◌, length, map, OnOk, IfOk};
ghost use Rattle.qed_terms.specs.Names.{before_colon};
ghost use Rattle.qed_terms.specs.Counts.{place_of, row_of};
ghost use Rattle.qed_terms.specs.Fresh.{fresh_name, none_used, use_one, used_in};

use itoa::Buffer;
use std::alloc::Global;
use std::marker::Model;
use wp_base::{NoMemory, Str};

/// A base name, and how many fresh names it has been given.
#[derive(Drop)]
struct Count {
    base: Str,
    given: u64,
}

/// The fresh names that have been given. Contracts see it as the base names with their counts, and
/// `used_in` reads off the count of a base, 0 where it has none.
#[derive(Drop)]
pub struct Fresh {
    counts: Vec<Count>,
    alloc: Global,
}

impl Model for Fresh {
    ghost use Rattle.std.specs.Prelude.{List, map, ℕ};
    ghost use Rattle.qed_terms.specs.Counts.{row_of};

    ghost Value = { List (List ℕ × ℕ) };

    ghost view = { λ s. map row_of s.counts.items };
}

impl Fresh {
    pub fn new(alloc: Global) -> Fresh
        ensures { used_in result ≡ none_used }
    {
        Fresh {
            counts: Vec::new(alloc),
            alloc,
        }
    }

    /// The next fresh name of a base: `#` and the next number, from 1, stand before the base's first `:`.
    /// A count that is at its type's end answers `NoMemory`.
    pub fn name(&mut self, base: &Str) -> Result<Str, NoMemory>
        ensures name { IfOk result (λ name. name ≡ fresh_name base.now (used_in self.new base.now)) }
        ensures counted { OnOk result (used_in self.new ≡ use_one (used_in self.old) base.now) }
    {
        let number = self.next(base)?;
        let name = marked(self.alloc, base, number)?;
        Ok(name)
    }

    /// Counts one more for the base.
    fn next(&mut self, base: &Str) -> Result<u64, NoMemory>
        ensures number { IfOk result (λ number. number ≡ used_in self.new base.now) }
        ensures some { IfOk result (λ number. 0 < number) }
        ensures counted { OnOk result (used_in self.new ≡ use_one (used_in self.old) base.now) }
    {
        match place(self.counts.as_slice(), base) {
            Some(at) => {
                let given = one_more(&self.counts[at])?;
                self.counts[at].given = given;
                Ok(given)
            }
            None => {
                let base = base.copy(self.alloc)?;
                self.counts.push(Count { base, given: 1 })?;
                Ok(1)
            }
        }
    }
}

fn one_more(count: &Count) -> Result<u64, NoMemory>
    ensures { IfOk result (λ given. given ≡ count.now.given + 1) }
{
    match count.given.checked_add(1) {
        Some(given) => Ok(given),
        None => Err(NoMemory),
    }
}

/// Where the base stands among the counts.
fn place(counts: &[Count], base: &Str) -> Option<usize>
    ensures { result ≡ place_of (map row_of counts.now) base.now }
{
    for at in 0..counts.len() {
        if counts[at].base.is_same(base) {
            return Some(at);
        }
    }
    None
}

/// How many bytes stand before the first `:`.
#[tactic(auto, using(crate::proofs::Colons::colon_laws))]
fn colon_place(bytes: &[u8]) -> usize
    ensures place { result ≡ length (before_colon bytes.now) }
    ensures within { result ≤ length bytes.now }
{
    for at in 0..bytes.len() {
        if bytes[at] == b':' {
            return at;
        }
    }
    bytes.len()
}

/// The base with `#` and the number before its first `:`.
fn marked(alloc: Global, base: &Str, number: u64) -> Result<Str, NoMemory>
    requires { 0 < number }
    ensures { IfOk result (λ name. name ≡ fresh_name base.now number) }
{
    let bytes = base.bytes();
    let colon = colon_place(bytes);
    let mut buffer = Buffer::new();
    let mut name = Vec::from_slice(alloc, &bytes[..colon])?;
    name.push(b'#')?;
    name.extend_from_slice(buffer.format(number).as_bytes())?;
    name.extend_from_slice(&bytes[colon..])?;
    Ok(Str::from_vec(name))
}
