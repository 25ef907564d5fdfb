// The base names of the slots of bodies.
ghost use Rattle.std.specs.Prelude.{◌≡◌, IfOk};
ghost use Rattle.checked_trees.specs.View.{view_checked_function, view_checked_program};
ghost use Rattle.c_runs.specs.Adding as adding;
ghost use Rattle.file_reports.specs.Bases.{bases_by, body_bases_by, function_bases};
ghost use Rattle.plain_sources.specs.Built as built;
ghost use Rattle.program_trees.specs.View.{view_core_program};
ghost use Rattle.typed_unit.specs.View.{view_body, view_typed};

use checked_trees::{CheckedFunction, CheckedProgram};
use checks_added::add_checks;
use plain_sources::{first_names, temporaries_in};
use program_trees::CoreProgram;
use slot_names::slot_bases;
use std::alloc::Global;
use typed_unit::{Body, Typed};
use verified_sources::item_at;
use wp_base::{List, NoMemory, Str};

// Of a function whose own variables have these names.
fn bases_of_function(
    alloc: Global,
    file: &[Str],
    own: &[Str],
    function: &CheckedFunction<'_>,
) -> Result<List<Str>, NoMemory>
    ensures { IfOk result (λ made. made ≡ function_bases file.now own.now (view_checked_function function.now)) }
{
    let temporaries = temporaries_in(function.body.as_slice());
    slot_bases(alloc, file, function.params as usize, own, temporaries)
}

// Of a body's function; none, where it isn't there.
fn bases_of_body(
    alloc: Global,
    typed: &Typed<'_>,
    program: &CheckedProgram<'_>,
    file: &[Str],
    body: &Body<'_>,
) -> Result<List<Str>, NoMemory>
    ensures { IfOk result (λ made. made ≡ body_bases_by (view_typed typed.now) (view_checked_program program.now) file.now (view_body body.now)) }
{
    let own = first_names(alloc, typed.bodies.as_slice(), body.function)?;
    match item_at(program.functions.as_slice(), body.function) {
        Some(function) => bases_of_function(alloc, file, own.as_slice(), function),
        None => Ok(List::new(alloc)),
    }
}

// Of all bodies.
fn bases_of(
    alloc: Global,
    typed: &Typed<'_>,
    program: &CheckedProgram<'_>,
    file: &[Str],
) -> Result<List<List<Str>>, NoMemory>
    ensures { IfOk result (λ made. made ≡ bases_by (view_typed typed.now) (view_checked_program program.now) file.now) }
{
    let mut made = List::new(alloc);
    for body in typed.bodies.as_slice() {
        made.push(bases_of_body(alloc, typed, program, file, body)?)?;
    }
    Ok(made)
}

/// The base names of the slots of all bodies, of the core program without its checks. They are made before those that are walked, since a walk lends them as
/// long as these last.
pub(crate) fn all_bases(
    alloc: Global,
    typed: &Typed<'_>,
    core: &CoreProgram<'_>,
    file: &[Str],
) -> Result<List<List<Str>>, NoMemory>
    ensures { IfOk result (λ made. made ≡ bases_by (view_typed typed.now) (adding.add_checks (view_core_program core.now)) file.now) }
{
    let checked = add_checks(alloc, core)?;
    bases_of(alloc, typed, &checked, file)
}
