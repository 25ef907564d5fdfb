// The declarations of the file scope (C11 6.2.1).
ghost use Rattle.std.specs.Prelude.{◌≡◌, IfOk, OnOk};
ghost use Rattle.name_table.specs.Names.{is_free};
ghost use Rattle.c_scopes.specs.Declarations as spec;

use crate::symbols::{Object, Resolved, Signature, Structure, Symbol, Tag};
use name_table::Table;
use std::alloc::Global;
use typed_prog::Variable;
use wp_base::{Kind, List, NoMemory, Str};

/// What the file has declared so far: ordinary names and tags, and beside them what their numbers stand for. Where memory is lacking in a
/// declaration, this may only be dropped.
#[derive(Drop)]
pub struct File {
    pub names: Table<Symbol>,
    pub tags: Table<Tag>,
    pub globals: List<Object>,
    pub functions: List<Signature>,
    pub typedefs: List<Resolved>,
    /// The structs with all their fields. The tag of one that isn't complete has the next number.
    pub structs: List<Structure>,
}

/// The next number of its sort. There are fewer of each than a number has room for, since each has a token of the text.
pub(crate) fn number_of(count: usize) -> Result<u32, NoMemory>
    ensures { IfOk result (λ number. number ≡ count) }
{
    if count > u32::MAX as usize {
        return Err(NoMemory);
    }
    Ok(count as u32)
}

impl File {
    /// A file without declarations.
    pub fn new(alloc: Global) -> File
        ensures { result ≡ spec.no_declarations }
    {
        File {
            names: Table::new(alloc),
            tags: Table::new(alloc),
            globals: List::new(alloc),
            functions: List::new(alloc),
            typedefs: List::new(alloc),
            structs: List::new(alloc),
        }
    }

    /// Declares a variable, unless its name is declared already; whether it did.
    pub fn declare_object(&mut self, alloc: Global, object: Object) -> Result<bool, NoMemory>
        ensures is_new { IfOk result (λ is_new. is_new ≡ is_free self.old.names object.name) }
        ensures ok { OnOk result (self.new ≡ spec.with_object self.old object) }
    {
        let symbol = Symbol::Object(Variable::Global(number_of(self.globals.len())?));
        let is_new = self.names.declare(alloc, &object.name, symbol)?;
        if is_new {
            self.globals.push(object)?;
        }
        Ok(is_new)
    }

    /// Declares a function, unless its name is declared already; whether it did.
    pub fn declare_function(&mut self, alloc: Global, function: Signature) -> Result<bool, NoMemory>
        ensures is_new { IfOk result (λ is_new. is_new ≡ is_free self.old.names function.name) }
        ensures ok { OnOk result (self.new ≡ spec.with_function self.old function) }
    {
        let symbol = Symbol::Function(number_of(self.functions.len())?);
        let is_new = self.names.declare(alloc, &function.name, symbol)?;
        if is_new {
            self.functions.push(function)?;
        }
        Ok(is_new)
    }

    /// Declares a typedef name, unless it is declared already; whether it did.
    pub fn declare_typedef(
        &mut self,
        alloc: Global,
        name: &Str,
        ty: Resolved,
    ) -> Result<bool, NoMemory>
        ensures is_new { IfOk result (λ is_new. is_new ≡ is_free self.old.names name.now) }
        ensures ok { OnOk result (self.new ≡ spec.with_typedef self.old name.now ty) }
    {
        let symbol = Symbol::Typedef(number_of(self.typedefs.len())?);
        let is_new = self.names.declare(alloc, name, symbol)?;
        if is_new {
            self.typedefs.push(ty)?;
        }
        Ok(is_new)
    }

    /// Declares an enumerator, unless its name is declared already; whether it did.
    pub fn declare_enumerator(
        &mut self,
        alloc: Global,
        name: &Str,
        value: i128,
    ) -> Result<bool, NoMemory>
        ensures is_new { IfOk result (λ is_new. is_new ≡ is_free self.old.names name.now) }
        ensures ok { OnOk result (self.new ≡ spec.with_enumerator self.old name.now value) }
    {
        self.names.declare(alloc, name, Symbol::Enumerator(value))
    }

    /// Declares the tag of a struct whose fields aren't declared yet, unless there is such a tag; whether it did.
    pub fn declare_struct(&mut self, alloc: Global, name: &Str) -> Result<bool, NoMemory>
        ensures is_new { IfOk result (λ is_new. is_new ≡ is_free self.old.tags name.now) }
        ensures ok { OnOk result (self.new ≡ spec.with_struct_tag self.old name.now) }
    {
        let tag = Tag::Struct(number_of(self.structs.len())?);
        self.tags.declare(alloc, name, tag)
    }

    /// Declares the tag of an enumerated type, unless there is such a tag; whether it did.
    pub fn declare_enum(&mut self, alloc: Global, name: &Str, kind: Kind) -> Result<bool, NoMemory>
        ensures is_new { IfOk result (λ is_new. is_new ≡ is_free self.old.tags name.now) }
        ensures ok { OnOk result (self.new ≡ spec.with_enum_tag self.old name.now kind) }
    {
        self.tags.declare(alloc, name, Tag::Enum(kind))
    }

    /// The struct whose tag was declared last is complete.
    pub fn complete_struct(&mut self, structure: Structure) -> Result<(), NoMemory>
        ensures { OnOk result (self.new ≡ spec.with_struct self.old structure) }
    {
        self.structs.push(structure)
    }
}
