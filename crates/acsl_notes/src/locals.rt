// The locals in scope (C11 6.2.1).
ghost use Rattle.std.specs.Prelude.{◌≡◌, IfOk, OnOk, map, slice_get};
ghost use Rattle.acsl_notes.specs.Notes as spec;
ghost use Rattle.typed_unit.specs.View.{view_declared};

use crate::notes::Noted;
use c_scopes::Object;
use name_table::Scopes;
use std::alloc::Global;
use typed_unit::Declared;
use wp_base::NoMemory;

/// The parameters of a function in scope, by their numbers.
#[tactic(auto, using(crate::proofs::Walking::param_laws))]
pub fn params_scope(alloc: Global, params: &[Object]) -> Result<Scopes<u32>, NoMemory>
    ensures { IfOk result (λ blocks. blocks ≡ spec.params_scope params.now) }
{
    let mut blocks = Scopes::new(alloc);
    blocks.enter(alloc)?;
    for i in 0..params.len() {
        if i > u32::MAX as usize {
            return Err(NoMemory);
        }
        blocks.declare(alloc, &params[i].name, i as u32)?;
    }
    Ok(blocks)
}

fn put_local(
    alloc: Global,
    objects: &[Object],
    so_far: &mut Noted,
    number: u32,
) -> Result<(), NoMemory>
    ensures { OnOk result (spec.view_noted so_far.new ≡ spec.with_object (spec.view_noted so_far.old) number (slice_get objects.now number)) }
{
    if let Some(object) = objects.get(number as usize) {
        let declared = number.checked_add(1).ok_or(NoMemory)?;
        so_far.blocks.declare(alloc, &object.name, number)?;
        so_far.declared = declared;
    }
    Ok(())
}

/// Declares locals in the innermost scope.
#[tactic(auto, using(crate::proofs::Walking::local_laws))]
pub(crate) fn put_locals(
    alloc: Global,
    objects: &[Object],
    so_far: &mut Noted,
    locals: &[Declared],
) -> Result<(), NoMemory>
    ensures { OnOk result (spec.view_noted so_far.new ≡ spec.with_locals objects.now (spec.view_noted so_far.old) (map view_declared locals.now)) }
{
    for i in 0..locals.len() {
        let local = &locals[i];
        put_local(alloc, objects, so_far, local.local)?;
    }
    Ok(())
}
