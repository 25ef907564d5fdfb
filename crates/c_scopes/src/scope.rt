// All that is in scope at a place (C11 6.2.1).
ghost use Rattle.std.specs.Prelude.{◌≡◌};
ghost use Rattle.std.specs.Option.{option_copied};
ghost use Rattle.c_scopes.specs.Declarations as spec;

use crate::file::File;
use crate::local::Local;
use crate::symbols::{Object, Symbol};
use typed_prog::Variable;
use wp_base::Str;

/// What is declared where an expression stands; outside functions there are no locals.
#[derive(Drop)]
pub struct Scope {
    pub file: File,
    pub local: Local,
}

impl Scope {
    /// What an ordinary name is, if it is declared: from the innermost block on, and then in the file.
    pub fn find(&self, name: &Str) -> Option<Symbol>
        ensures { result ≡ spec.find self.now name.now }
    {
        match self.local.blocks.find(name) {
            Some(number) => self.local.symbol(number),
            None => self.file.names.find(name),
        }
    }

    /// The declaration of a variable; none exactly where there is no such number.
    pub fn object(&self, variable: Variable) -> Option<&Object>
        ensures { option_copied result ≡ spec.object_of self.now variable }
    {
        match variable {
            Variable::Global(number) => self.file.globals.get(number as usize),
            Variable::Local(number) => self.local.objects.get(number as usize),
        }
    }
}
