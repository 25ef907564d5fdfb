// Names of variables.
ghost use Rattle.std.specs.Prelude.{◌≡◌, map, IfOk};
ghost use Rattle.plain_sources.specs.Built as spec;
ghost use Rattle.plain_goals.specs.Files.{names_in};
ghost use Rattle.typed_unit.specs.View.{view_body};

use c_scopes::Object;
use std::alloc::Global;
use typed_unit::Body;
use wp_base::{List, NoMemory, Str};

/// The names of objects.
pub fn names_of(alloc: Global, objects: &[Object]) -> Result<List<Str>, NoMemory>
    ensures { IfOk result (λ made. made ≡ names_in objects.now) }
{
    let mut made = List::new(alloc);
    for object in objects {
        made.push(object.name.copy(alloc)?)?;
    }
    Ok(made)
}

/// The names of a function's parameters and locals: those of its first body.
pub fn first_names(alloc: Global, bodies: &[Body<'_>], function: u32) -> Result<List<Str>, NoMemory>
    ensures { IfOk result (λ made. made ≡ spec.first_names function (map view_body bodies.now)) }
{
    for body in bodies {
        if body.function == function {
            return names_of(alloc, body.locals.as_slice());
        }
    }
    Ok(List::new(alloc))
}
