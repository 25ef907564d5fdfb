// The declarations of a function's blocks (C11 6.2.1).
ghost use Rattle.std.specs.Prelude.{◌≡◌, IfOk, OnOk, length};
ghost use Rattle.c_scopes.specs.Declarations as spec;

use crate::file::number_of;
use crate::symbols::{Object, Symbol};
use name_table::Scopes;
use std::alloc::Global;
use typed_prog::Variable;
use wp_base::{List, NoMemory, Str};

/// The names of the blocks around a place of a function, and all objects that the function declared so far, its parameters first. Where
/// memory is lacking in a declaration, this may only be dropped.
#[derive(Drop)]
pub struct Local {
    pub blocks: Scopes<u32>,
    pub objects: List<Object>,
    /// The object whose initialiser is being read: it hides its name, and may not be named there.
    pub initialising: Option<u32>,
}

impl Local {
    /// No block and no object.
    pub fn new(alloc: Global) -> Local
        ensures { result ≡ spec.no_locals }
    {
        Local {
            blocks: Scopes::new(alloc),
            objects: List::new(alloc),
            initialising: None,
        }
    }

    /// A block begins. Parameters and the outermost block of a body are one (C11 6.2.1p4).
    pub fn enter(&mut self, alloc: Global) -> Result<(), NoMemory>
        ensures { OnOk result (self.new ≡ spec.with_block self.old) }
    {
        self.blocks.enter(alloc)
    }

    /// The innermost block ends.
    pub fn leave(&mut self)
        ensures { self.new ≡ spec.without_block self.old }
    {
        self.blocks.leave();
    }

    /// Whether a name isn't declared in the innermost block.
    pub fn is_free(&self, name: &Str) -> bool
        ensures { result ≡ spec.is_free_here self.now name.now }
    {
        self.blocks.is_free(name)
    }

    /// The number of the object that is declared next.
    pub fn next_number(&self) -> Result<u32, NoMemory>
        ensures { IfOk result (λ number. number ≡ length self.now.objects) }
    {
        number_of(self.objects.len())
    }

    /// Declares an object in the innermost block, unless its name is declared there; whether it did.
    pub fn declare(&mut self, alloc: Global, object: Object) -> Result<bool, NoMemory>
        ensures is_new { IfOk result (λ is_new. is_new ≡ spec.is_free_here self.old object.name) }
        ensures ok { OnOk result (self.new ≡ spec.with_local self.old object) }
    {
        let number = self.next_number()?;
        let is_new = self.blocks.declare(alloc, &object.name, number)?;
        if is_new {
            self.objects.push(object)?;
        }
        Ok(is_new)
    }

    /// All objects, whatever blocks are open.
    pub fn into_objects(self) -> List<Object>
        ensures { result ≡ self.objects }
    {
        let Local {
            blocks,
            objects,
            initialising: _,
        } = self;
        drop(blocks);
        objects
    }

    /// The symbol of the object with this number; none where its initialiser is being read.
    pub(crate) fn symbol(&self, number: u32) -> Option<Symbol>
        ensures { result ≡ spec.local_symbol self.now.initialising number }
    {
        let symbol = Symbol::Object(Variable::Local(number));
        match self.initialising {
            None => Some(symbol),
            Some(other) => { if other == number { None } else { Some(symbol) } }
        }
    }
}
