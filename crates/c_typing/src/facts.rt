// What typing wants to know of the whole file first.
ghost use Rattle.std.specs.Prelude.{◌≡◌, [], map, IfOk, OnOk};
ghost use Rattle.c_syntax.specs.View.{view_decl, view_program};
ghost use Rattle.c_typing.specs.Typing as spec;
ghost use Rattle.c_typing.specs.View.{view_facts};

use c_syntax::{Decl, Program};
use c_taken::taken_names;
use name_table::Table;
use std::alloc::Global;
use wp_base::NoMemory;

/// Facts of a whole file.
#[derive(Drop)]
pub(crate) struct Facts {
    /// The names of the file whose address is taken.
    pub taken: Table<bool>,
    /// The functions with a body.
    pub bodied: Table<bool>,
}

fn add_bodied(alloc: Global, names: &mut Table<bool>, decl: &Decl) -> Result<(), NoMemory>
    ensures { OnOk result (names.new ≡ spec.bodied_with names.old (view_decl decl.now)) }
{
    match decl {
        Decl::Function(function) => {
            if function.body.is_some() {
                names.declare(alloc, &function.name, true)?;
            }
            Ok(())
        }
        Decl::Struct(_) => Ok(()),
        Decl::Enum(_) => Ok(()),
        Decl::Typedef(_) => Ok(()),
        Decl::Globals(_) => Ok(()),
        Decl::Logic(_) => Ok(()),
    }
}

fn bodied(alloc: Global, decls: &[Decl]) -> Result<Table<bool>, NoMemory>
    ensures { IfOk result (λ names. names ≡ spec.bodied [] (map view_decl decls.now)) }
{
    let mut names = Table::new(alloc);
    for i in 0..decls.len() {
        add_bodied(alloc, &mut names, &decls[i])?;
    }
    Ok(names)
}

pub(crate) fn facts_of(alloc: Global, program: &Program) -> Result<Facts, NoMemory>
    ensures { IfOk result (λ facts. view_facts facts ≡ spec.facts_of (view_program program.now)) }
{
    let taken = taken_names(alloc, program)?;
    let bodied = bodied(alloc, program.decls.as_slice())?;
    Ok(Facts { taken, bodied })
}
