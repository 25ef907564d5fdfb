// Which typed files are over integers that no pointer leads to.
ghost use Rattle.std.specs.Prelude.{◌≡◌, ◌&&◌, map, false, slice_index_or};
ghost use Rattle.std.specs.List.{list_all};
ghost use Rattle.plain_test.specs.Plain as spec;
ghost use Rattle.typed_unit.specs.View.{view_body, view_typed};

use crate::stmts::is_plain_stmt;
use crate::values::{is_integer_type, is_value_type};
use c_kinds::Machdep;
use c_scopes::{Object, Signature};
use typed_unit::{Body, Typed};

fn flag_at(flags: &[bool], place: usize) -> bool
    ensures { result ≡ slice_index_or flags.now place false }
{
    if place < flags.len() {
        flags[place]
    } else {
        false
    }
}

fn is_plain_object(plain: &[bool], place: usize, object: &Object) -> bool
    ensures { result ≡ (slice_index_or plain.now place false && spec.is_integer_type object.now.ty) }
{
    flag_at(plain, place) && is_integer_type(&object.ty)
}

#[tactic(auto, using(crate::proofs::Lists::objects_laws))]
fn are_plain_objects(plain: &[bool], objects: &[Object]) -> bool
    ensures { result ≡ spec.are_plain_objects plain.now 0 objects.now }
{
    for i in 0..objects.len() {
        let fits = is_plain_object(plain, i, &objects[i]);
        if !fits {
            return false;
        }
    }
    true
}

fn are_plain_results(functions: &[Signature]) -> bool
    ensures { result ≡ list_all spec.is_plain_result functions.now }
{
    functions
        .iter()
        .all(|function| is_value_type(&function.result))
}

fn is_plain_body(model: Machdep, body: &Body<'_>) -> bool
    ensures { result ≡ spec.is_plain_body model (view_body body.now) }
{
    are_plain_objects(body.plain.as_slice(), body.locals.as_slice())
        && is_plain_stmt(model, &body.stmt)
}

#[tactic(auto, using(crate::proofs::Lists::bodies_laws))]
fn are_plain_bodies(model: Machdep, bodies: &[Body<'_>]) -> bool
    ensures { result ≡ list_all (spec.is_plain_body model) (map view_body bodies.now) }
{
    for i in 0..bodies.len() {
        let fits = is_plain_body(model, &bodies[i]);
        if !fits {
            return false;
        }
    }
    true
}

/// Whether the file is over integers that no pointer leads to: without pointer, array and struct, and without a variable whose address is
/// taken. For such files goals of whole programs are proved to say what runs do.
#[tactic(auto, unfolding(crate::specs::Plain::is_plain_file))]
pub fn is_plain(typed: &Typed<'_>) -> bool
    ensures { result ≡ spec.is_plain_file (view_typed typed.now) }
{
    let globals = typed.file.globals.as_slice();
    are_plain_objects(typed.plain.as_slice(), globals)
        && (are_plain_results(typed.file.functions.as_slice())
            && are_plain_bodies(typed.model, typed.bodies.as_slice()))
}
