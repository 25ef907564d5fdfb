// Copies of how logic functions are called.
ghost use Rattle.std.specs.Prelude.{◌≡◌, IfOk};

use annotation_heads::copy_cells;
use annotation_words::{Called, GlobalName, Named};
use std::alloc::Global;
use wp_base::{List, NoMemory};

fn copy_parameter(alloc: Global, parameter: &Named) -> Result<Named, NoMemory>
    ensures { IfOk result (λ copy. copy ≡ parameter.now) }
{
    match parameter {
        Named::Integer(name) => Ok(Named::Integer(name.copy(alloc)?)),
        Named::Pointer(block, offset) => {
            let block = block.copy(alloc)?;
            Ok(Named::Pointer(block, offset.copy(alloc)?))
        }
    }
}

/// A copy of parameters, which equals its source.
pub(crate) fn copy_params(alloc: Global, params: &[Named]) -> Result<List<Named>, NoMemory>
    ensures { IfOk result (λ copy. copy ≡ params.now) }
{
    let mut made = List::new(alloc);
    for parameter in params {
        made.push(copy_parameter(alloc, parameter)?)?;
    }
    Ok(made)
}

/// A copy of a variable, which equals its source.
pub(crate) fn copy_global(alloc: Global, global: &GlobalName) -> Result<GlobalName, NoMemory>
    ensures { IfOk result (λ copy. copy ≡ global.now) }
{
    match global {
        GlobalName::Integer(number, kind, name) => {
            Ok(GlobalName::Integer(*number, *kind, name.copy(alloc)?))
        }
        GlobalName::Pointer(number, block, offset) => {
            let block = block.copy(alloc)?;
            Ok(GlobalName::Pointer(*number, block, offset.copy(alloc)?))
        }
    }
}

fn copy_globals(alloc: Global, globals: &[GlobalName]) -> Result<List<GlobalName>, NoMemory>
    ensures { IfOk result (λ copy. copy ≡ globals.now) }
{
    let mut made = List::new(alloc);
    for global in globals {
        made.push(copy_global(alloc, global)?)?;
    }
    Ok(made)
}

/// A copy, which equals its source.
pub fn copy_called(alloc: Global, called: &Called) -> Result<Called, NoMemory>
    ensures { IfOk result (λ copy. copy ≡ called.now) }
{
    let name = called.name.copy(alloc)?;
    let params = copy_params(alloc, called.params.as_slice())?;
    let memories = copy_cells(alloc, called.memories.as_slice())?;
    let globals = copy_globals(alloc, called.globals.as_slice())?;
    Ok(Called {
        name,
        params,
        memories,
        globals,
    })
}
