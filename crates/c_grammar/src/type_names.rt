// The names that typedefs declared (C11 6.7.8), looked up by a hash.
ghost use Rattle.std.specs.Prelude.{◌≡◌, [], ◌∷◌, ◌++◌, OnOk, OnErr};
ghost use Rattle.c_grammar.specs.Tokens.{is_type as is_typedef_name};

use name_table::Table;
use std::alloc::Global;
use std::marker::Model;
use wp_base::{NoMemory, Str};

/// The names that typedefs declared so far. Contracts see the list of these, in the order of their declarations.
#[derive(Drop)]
pub struct TypeNames {
    names: Vec<Str>,
    known: Table<()>,
}

impl Model for TypeNames {
    ghost use Rattle.std.specs.Prelude.{List, ℕ};
    ghost use Rattle.c_grammar.specs.Known.{Knows};

    ghost Value = { List (List ℕ) };

    ghost view = { λ types. types.names.items };

    ghost invariant = { λ types. Knows types.known types.names.items };
}

impl TypeNames {
    /// No names at all.
    #[tactic(auto, using(crate::proofs::Knowing::nothing_known))]
    pub fn new(alloc: Global) -> TypeNames
        ensures { result ≡ [] }
    {
        TypeNames {
            names: Vec::new(alloc),
            known: Table::new(alloc),
        }
    }

    /// Whether a typedef declared the name.
    pub fn has(&self, name: &Str) -> bool
        ensures { result ≡ is_typedef_name self.now name.now }
    {
        self.known.find(name).is_some()
    }

    /// Declares a name behind the others.
    #[tactic(auto, using(crate::proofs::Knowing::one_more_known))]
    pub fn declare(&mut self, alloc: Global, name: Str) -> Result<(), NoMemory>
        ensures ok { OnOk result (self.new ≡ self.old ++ name ∷ []) }
        ensures err { OnErr result (self.new ≡ self.old) }
    {
        // Room comes first: once the table knows the name, the list takes it.
        self.names.reserve(1)?;
        self.known.declare(alloc, &name, ())?;
        self.names.push(name)?;
        Ok(())
    }
}
