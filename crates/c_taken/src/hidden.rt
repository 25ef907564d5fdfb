// Names that are hidden at a place, as those of a quantifier in its body (ACSL 2.2).
ghost use Rattle.std.specs.Prelude.{◌≡◌, [], ◌∷◌, ◌++◌, IfOk, OnOk, length, map, take};
ghost use Rattle.c_taken.specs.Addressed.{is_among, names_of, outside};
ghost use Rattle.c_taken.specs.Pieces.{hidden_by, hidden_by_all, pointed};
ghost use Rattle.c_syntax.specs.View.{view_var};

use c_syntax::VarDecl;
use indexmap::IndexSet;
use std::alloc::Global;
use std::marker::Model;
use wp_base::{List, NoMemory, Str};

// The hidden names, in the order in which they were hidden: a look-up is one hash, however many quantifiers are open. Contracts see the list.
#[derive(Drop)]
pub(crate) struct Hidden {
    names: IndexSet<Vec<u8>>,
}

impl Model for Hidden {
    ghost use Rattle.std.specs.Prelude.{ℕ, List, map};

    ghost Value = { List (List ℕ) };

    ghost view = { λ hidden. map (λ name. name.items) hidden.names.keys };
}

impl Hidden {
    /// No hidden name.
    pub(crate) fn new(alloc: Global) -> Hidden
        ensures { result ≡ [] }
    {
        Hidden {
            names: IndexSet::new(alloc),
        }
    }

    /// How many names are hidden.
    pub(crate) fn len(&self) -> usize
        ensures { result ≡ length self.now }
    {
        self.names.len()
    }

    #[tactic(auto, using(crate::proofs::Hiding::key_laws))]
    fn hides(&self, name: &Str) -> bool
        ensures { result ≡ is_among self.now name.now }
    {
        self.names.contains(name.bytes())
    }

    /// Hides one name more, unless it is hidden already.
    #[tactic(auto, using(crate::proofs::Hiding::key_laws))]
    pub(crate) fn hide(&mut self, alloc: Global, name: &Str) -> Result<(), NoMemory>
        ensures { OnOk result (self.new ≡ hidden_by self.old name.now) }
    {
        if self.hides(name) {
            return Ok(());
        }
        let key = Vec::from_slice(alloc, name.bytes())?;
        self.names.insert(key)?;
        Ok(())
    }

    /// Hides the names that are declared.
    pub(crate) fn hide_all(&mut self, alloc: Global, vars: &List<VarDecl>) -> Result<(), NoMemory>
        ensures { OnOk result (self.new ≡ hidden_by_all self.old (names_of (map view_var vars.now))) }
    {
        for var in vars.as_slice() {
            self.hide(alloc, &var.name)?;
        }
        Ok(())
    }

    /// Goes back to as many hidden names as there were.
    #[tactic(auto, using(crate::proofs::Hiding::key_laws))]
    pub(crate) fn truncate(&mut self, count: usize)
        ensures { self.new ≡ take count self.old }
    {
        self.names.truncate(count);
    }

    fn put_if_shown<'a>(&self, names: &mut Vec<&'a Str>, name: &'a Str) -> Result<(), NoMemory>
        ensures { OnOk result (pointed names.new.items ≡ pointed names.old.items ++ outside self.now (name.now ∷ [])) }
    {
        if self.hides(name) {
            return Ok(());
        }
        names.push(name)?;
        Ok(())
    }

    /// Puts those of the names found that aren't hidden behind the others.
    pub(crate) fn put_shown<'a>(
        &self,
        names: &mut Vec<&'a Str>,
        found: &[&'a Str],
    ) -> Result<(), NoMemory>
        ensures { OnOk result (pointed names.new.items ≡ pointed names.old.items ++ outside self.now (pointed found.now)) }
    {
        for name in found {
            self.put_if_shown(names, *name)?;
        }
        Ok(())
    }
}
