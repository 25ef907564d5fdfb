// Whether what is read of a text is verified.
ghost use Rattle.std.specs.Prelude.{◌≡◌, ◌&&◌, ℕ, List, map, IfOk};
ghost use Rattle.std.specs.Borrow.{Bor};
ghost use Rattle.std.specs.List.{list_all};
ghost use Rattle.std.specs.Option.{option_map};
ghost use Rattle.checked_trees.specs.declared.files.CheckedFunction as memory;
ghost use Rattle.program_trees.specs.Files.{at};
ghost use Rattle.checked_trees.specs.View.{view_checked_function, view_checked_program};
ghost use Rattle.plain_annotations.specs.Annotated as annotated;
ghost use Rattle.logic_sources.specs.Built as spec;
ghost use Rattle.plain_trees.specs.Taking.{taking};
ghost use Rattle.program_trees.specs.View.{view_facts};
ghost use Rattle.slot_names.specs.Bases as bases;
ghost use Rattle.typed_unit.specs.View.{view_body};

use checked_trees::{CheckedFunction, CheckedProgram};
use plain_sources::first_names;
use plain_trees::is_annotated;
use program_trees::Facts;
use slot_names::are_fit;
use std::alloc::Global;
use typed_unit::Body;
use wp_base::{NoMemory, Str};

// A function whose annotations are plain, and whose variables have names that differ where they have to.
fn function_fits(
    alloc: Global,
    facts: &Facts,
    takes: &[Option<usize>],
    file: &[Str],
    own: &[Str],
    function: &CheckedFunction<'_>,
) -> Result<bool, NoMemory>
    ensures { IfOk result (λ so. so ≡ (annotated.is_annotated (view_facts facts.now) (taking takes.now) (view_checked_function function.now) && bases.are_fit file.now function.now.params own.now)) }
{
    if !is_annotated(facts, takes, function) {
        return Ok(false);
    }
    are_fit(alloc, file, function.params as usize, own)
}

// The function with a number, if it is there.
fn function_at<'a, 'b>(
    functions: &'b [Option<CheckedFunction<'a>>],
    number: u32,
) -> Option<&'b CheckedFunction<'a>>
    ensures { option_map (λ (found : Bor memory.CheckedFunction). view_checked_function found.now) result ≡ at (map (option_map view_checked_function) functions.now) number }
{
    match functions.get(number as usize) {
        Some(found) => found.as_ref(),
        None => None,
    }
}

// The function of a body, if there is one.
fn named_fit(
    alloc: Global,
    facts: &Facts,
    takes: &[Option<usize>],
    file: &[Str],
    bodies: &[Body<'_>],
    number: u32,
    found: Option<&CheckedFunction<'_>>,
) -> Result<bool, NoMemory>
    ensures { IfOk result (λ so. so ≡ spec.named_fit takes.now (view_facts facts.now) file.now (map view_body bodies.now) number (option_map (λ (c : Bor memory.CheckedFunction). view_checked_function c.now) found.entry)) }
{
    match found {
        None => Ok(true),
        Some(function) => {
            let own = first_names(alloc, bodies, number)?;
            function_fits(alloc, facts, takes, file, own.as_slice(), function)
        }
    }
}

fn body_fits(
    alloc: Global,
    program: &CheckedProgram<'_>,
    takes: &[Option<usize>],
    file: &[Str],
    bodies: &[Body<'_>],
    body: &Body<'_>,
) -> Result<bool, NoMemory>
    ensures { IfOk result (λ so. so ≡ spec.fits_in takes.now (view_checked_program program.now) file.now (map view_body bodies.now) (view_body body.now)) }
{
    let found = function_at(program.functions.as_slice(), body.function);
    named_fit(
        alloc,
        program.facts,
        takes,
        file,
        bodies,
        body.function,
        found,
    )
}

/// Whether the functions of all bodies have plain annotations, where logic functions take so many integers, and names that differ.
pub fn bodies_fit(
    alloc: Global,
    program: &CheckedProgram<'_>,
    takes: &[Option<usize>],
    file: &[Str],
    bodies: &[Body<'_>],
) -> Result<bool, NoMemory>
    ensures { IfOk result (λ so. so ≡ list_all (spec.fits_in takes.now (view_checked_program program.now) file.now (map view_body bodies.now)) (map view_body bodies.now)) }
{
    for body in bodies {
        if !body_fits(alloc, program, takes, file, bodies, body)? {
            return Ok(false);
        }
    }
    Ok(true)
}
