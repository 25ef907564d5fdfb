// Parameters (C11 6.7.6.3).
ghost use Rattle.std.specs.Prelude.{◌≡◌, IfOk, Ok, map};
ghost use Rattle.c_answers.specs.Answers.{Gives};
ghost use Rattle.c_functions.specs.Functions as spec;
ghost use Rattle.c_stmts.specs.Locals as locals;
ghost use Rattle.c_syntax.specs.View.{view_var};

use c_scopes::{Object, Resolved};
use c_stmts::declare;
use c_syntax::VarDecl;
use c_variables::{Context, parameter};
use std::alloc::Global;
use typed_prog::CoreType;
use wp_base::{List, NoMemory, Stop};

fn param_type(alloc: Global, context: &Context, decl: &VarDecl) -> Result<Resolved, Stop>
    ensures { Gives (λ t. t) result (spec.param_type context.now (view_var decl.now)) }
{
    let scope = &context.scope;
    let is_free = scope.local.is_free(&decl.name);
    let sizes = context.sizes.as_slice();
    parameter(
        alloc,
        context.model,
        sizes,
        scope,
        is_free,
        decl.line,
        &decl.ty,
    )
}

fn with_variable(
    alloc: Global,
    context: &mut Context,
    decl: &VarDecl,
    ty: Resolved,
) -> Result<(), Stop>
    ensures { Gives (λ _. context.new) result (Ok (locals.with_variable context.old (view_var decl.now) ty)) }
{
    declare(alloc, context, decl, ty)?;
    Ok(())
}

#[tactic(auto, using(c_answers::proofs::After::after_laws), unfolding(crate::specs::Functions::param))]
fn param(alloc: Global, context: &mut Context, decl: &VarDecl) -> Result<(), Stop>
    ensures { Gives (λ _. context.new) result (spec.param context.old (view_var decl.now)) }
{
    let ty = param_type(alloc, context, decl)?;
    with_variable(alloc, context, decl, ty)
}

/// Declares the parameters of a function, in order.
#[tactic(auto, using(crate::proofs::Parameters::params_laws))]
pub(crate) fn params(alloc: Global, context: &mut Context, decls: &[VarDecl]) -> Result<(), Stop>
    ensures { Gives (λ _. context.new) result (spec.params context.old (map view_var decls.now)) }
{
    for i in 0..decls.len() {
        param(alloc, context, &decls[i])?;
    }
    Ok(())
}

/// Whether the parameters have these types.
pub(crate) fn are_same(types: &List<CoreType>, objects: &List<Object>) -> bool
    ensures { result ≡ spec.same_types types.now objects.now }
{
    let mut types = types.as_slice();
    let mut objects = objects.as_slice();
    while let Some((ty, more_types)) = types.split_first() {
        let Some((object, more_objects)) = objects.split_first() else {
            return false;
        };
        if !ty.is_same(&object.ty) {
            return false;
        }
        types = more_types;
        objects = more_objects;
    }
    objects.is_empty()
}

/// The types of objects, in order.
pub(crate) fn types_of(alloc: Global, objects: &List<Object>) -> Result<List<CoreType>, NoMemory>
    ensures { IfOk result (λ types. types ≡ map (λ o. o.ty) objects.now) }
{
    let mut types = List::new(alloc);
    for object in objects.as_slice() {
        types.push(object.ty.copy(alloc)?)?;
    }
    Ok(types)
}

fn copy_of(alloc: Global, object: &Object) -> Result<Object, NoMemory>
    ensures { IfOk result (λ copy. copy ≡ object.now) }
{
    let name = object.name.copy(alloc)?;
    let ty = object.ty.copy(alloc)?;
    Ok(Object {
        name,
        ty,
        is_const: object.is_const,
        line: object.line,
    })
}

/// Copies, which equal their sources.
pub(crate) fn copies(alloc: Global, objects: &List<Object>) -> Result<List<Object>, NoMemory>
    ensures { IfOk result (λ copies. copies ≡ objects.now) }
{
    let mut done = List::new(alloc);
    for object in objects.as_slice() {
        done.push(copy_of(alloc, object)?)?;
    }
    Ok(done)
}
