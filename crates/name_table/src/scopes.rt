// Scopes one within the other (C11 6.2.1).
ghost use Rattle.std.specs.Prelude.{◌≡◌, [], IfOk, OnOk, OnErr};
ghost use Rattle.name_table.specs.Names.{is_free};
ghost use Rattle.name_table.specs.Nesting as spec;

use crate::table::Table;
use std::alloc::Global;
use std::marker::Model;
use wp_base::{NoMemory, Str};

/// The scopes around a place, each with its names. Contracts see the list of these, the outermost first.
#[derive(Drop)]
pub struct Scopes<V> {
    tables: Vec<Table<V>>,
}

impl<V> Model for Scopes<V> {
    ghost use Rattle.std.specs.Prelude.{List};
    ghost use Rattle.name_table.specs.Names.{Names};

    ghost Value = { List (Names V) };

    ghost view = { λ scopes. scopes.tables.items };
}

impl<V> Scopes<V> {
    /// No scope at all.
    pub fn new(alloc: Global) -> Scopes<V>
        ensures { result ≡ [] }
    {
        Scopes {
            tables: Vec::new(alloc),
        }
    }
}

impl<V: Copy> Scopes<V> {
    /// A scope begins, inside the others.
    pub fn enter(&mut self, alloc: Global) -> Result<(), NoMemory>
        ensures ok { OnOk result (self.new ≡ spec.entered self.old) }
        ensures err { OnErr result (self.new ≡ self.old) }
    {
        self.tables.push(Table::new(alloc))?;
        Ok(())
    }

    /// The innermost scope ends, with its names.
    pub fn leave(&mut self)
        ensures { self.new ≡ spec.around self.old }
    {
        self.tables.pop();
    }

    /// Declares a name in the innermost scope, unless it is declared there; whether it did. Where there is no scope, one is entered.
    #[tactic(auto, using(crate::proofs::Hiding::written))]
    pub fn declare(&mut self, alloc: Global, name: &Str, meaning: V) -> Result<bool, NoMemory>
        ensures is_new { IfOk result (λ is_new. is_new ≡ is_free (spec.innermost self.old) name.now) }
        ensures ok { OnOk result (self.new ≡ spec.declared_in self.old name.now meaning) }
        ensures err { OnErr result (self.new ≡ self.old) }
    {
        let count = self.tables.len();
        if count == 0 {
            let mut table = Table::new(alloc);
            let is_new = table.declare(alloc, name, meaning)?;
            self.tables.push(table)?;
            return Ok(is_new);
        }
        let innermost = &mut self.tables[count - 1];
        innermost.declare(alloc, name, meaning)
    }

    /// Whether a name isn't declared in the innermost scope.
    pub fn is_free(&self, name: &Str) -> bool
        ensures { result ≡ is_free (spec.innermost self.now) name.now }
    {
        let count = self.tables.len();
        if count == 0 {
            return true;
        }
        self.tables[count - 1].find(name).is_none()
    }

    /// What a name means, from the innermost scope on.
    #[tactic(auto, using(crate::proofs::Hiding::found_there, crate::proofs::Hiding::none_there))]
    pub fn find(&self, name: &Str) -> Option<V>
        ensures { result ≡ spec.meaning_in self.now name.now }
    {
        let mut left = self.tables.len();
        while left > 0 {
            left -= 1;
            let meaning = self.tables[left].find(name);
            if meaning.is_some() {
                return meaning;
            }
        }
        None
    }
}
