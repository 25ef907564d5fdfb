// The names of one scope (C11 6.2.1).
ghost use Rattle.std.specs.Prelude.{◌≡◌, [], length, IfOk, OnOk, OnErr};
ghost use Rattle.name_table.specs.Names as spec;

use indexmap::IndexMap;
use std::alloc::Global;
use std::marker::Model;
use wp_base::{NoMemory, Str};

/// Names that differ, with what each means. Contracts see the list of these pairs, in the order of their declarations.
#[derive(Drop)]
pub struct Table<V> {
    entries: IndexMap<Vec<u8>, V>,
}

impl<V> Model for Table<V> {
    ghost use Rattle.name_table.specs.Names.{Names, declarations};

    ghost Value = { Names V };

    ghost view = { λ table. declarations table.entries.entries };
}

impl<V> Table<V> {
    /// A table without names.
    pub fn new(alloc: Global) -> Table<V>
        ensures { result ≡ [] }
    {
        Table {
            entries: IndexMap::new(alloc),
        }
    }

    /// How many names are declared.
    pub fn len(&self) -> usize
        ensures { result ≡ length self.now }
    {
        self.entries.len()
    }
}

impl<V: Copy> Table<V> {
    /// What a name means, if it is declared.
    #[tactic(auto, using(crate::proofs::Tables::looked_up))]
    pub fn find(&self, name: &Str) -> Option<V>
        ensures { result ≡ spec.meaning_of self.now name.now }
    {
        self.entries.get(name.bytes()).copied()
    }

    /// What a name means among the first so many that are declared; none where it isn't one of these.
    pub fn find_among(&self, count: usize, name: &Str) -> Option<V>
        ensures { result ≡ spec.meaning_among count self.now name.now }
    {
        match self.entries.get_index_of(name.bytes()) {
            Some(place) => { if place < count { self.find(name) } else { None } }
            None => None,
        }
    }

    /// Declares a name behind the others, unless it is declared already; whether it did.
    pub fn declare(&mut self, alloc: Global, name: &Str, meaning: V) -> Result<bool, NoMemory>
        ensures is_new { IfOk result (λ is_new. is_new ≡ spec.is_free self.old name.now) }
        ensures ok { OnOk result (self.new ≡ spec.declared self.old name.now meaning) }
        ensures err { OnErr result (self.new ≡ self.old) }
    {
        if self.find(name).is_some() {
            return Ok(false);
        }
        let key = Vec::from_slice(alloc, name.bytes())?;
        self.entries.insert(key, meaning)?;
        Ok(true)
    }
}
