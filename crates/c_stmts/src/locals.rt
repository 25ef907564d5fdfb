// Declarations of locals (C11 6.7).
ghost use Rattle.std.specs.Prelude.{◌≡◌, true, IfOk, OnOk, map, slice_index_or};
ghost use Rattle.std.specs.Option.{option_map};
ghost use Rattle.c_answers.specs.Answers.{Gives};
ghost use Rattle.c_stmts.specs.Locals as spec;
ghost use Rattle.c_syntax.specs.View.{view_expr, view_var};
ghost use Rattle.typed_prog.specs.View.{view_value};
ghost use Rattle.typed_unit.specs.View.{view_declared};

use c_contexts::initialiser;
use c_rules::is_scalar;
use c_scopes::{Resolved, extent};
use c_syntax::{Expr, VarDecl};
use c_variables::{Context, object_of, variable};
use std::alloc::Global;
use typed_prog::{CoreType, Value};
use typed_unit::Declared;
use wp_base::{List, NoMemory, Stop};

#[tactic(auto, using(c_answers::proofs::After::after_laws))]
fn local_type(alloc: Global, context: &Context, decl: &VarDecl) -> Result<Resolved, Stop>
    ensures { Gives (λ t. t) result (spec.local_type context.now (view_var decl.now)) }
{
    let scope = &context.scope;
    let is_free = scope.local.is_free(&decl.name);
    let sizes = context.sizes.as_slice();
    let ty = variable(
        alloc,
        context.model,
        sizes,
        scope,
        is_free,
        decl.line,
        &decl.ty,
    )?;
    extent(alloc, &scope.file.structs, decl.line, &ty)?;
    Ok(ty)
}

// A local without a flag counts as one whose address is taken.
fn is_taken(taken: &[bool], number: u32) -> bool
    ensures { result ≡ slice_index_or taken.now number true }
{
    match taken.get(number as usize) {
        Some(is_taken) => *is_taken,
        None => true,
    }
}

fn is_plain_local(context: &Context, number: u32, ty: &CoreType) -> bool
    ensures { result ≡ spec.is_plain_local context.now number ty.now }
{
    !is_taken(context.taken.as_slice(), number) && is_scalar(ty)
}

/// Declares a parameter or local of this type; its number.
pub fn declare(
    alloc: Global,
    context: &mut Context,
    decl: &VarDecl,
    ty: Resolved,
) -> Result<u32, NoMemory>
    ensures number { IfOk result (λ number. number ≡ spec.count_of context.old) }
    ensures ok { OnOk result (context.new ≡ spec.with_variable context.old (view_var decl.now) ty) }
{
    let number = context.scope.local.next_number()?;
    let is_plain = is_plain_local(context, number, &ty.ty);
    let object = object_of(alloc, decl, ty)?;
    context.locals.push(is_plain)?;
    context.scope.local.declare(alloc, object)?;
    Ok(number)
}

#[tactic(auto, using(c_answers::proofs::After::after_laws))]
fn initial_value(
    alloc: Global,
    context: &Context,
    ty: &CoreType,
    init: &Option<Expr>,
) -> Result<Option<Value>, Stop>
    ensures { Gives (option_map view_value) result (spec.initial_value context.now ty.now (option_map view_expr init.now)) }
{
    match init {
        None => Ok(None),
        Some(expr) => {
            let value = initialiser(
                alloc,
                context.model,
                context.sizes.as_slice(),
                &context.scope,
                context.globals.as_slice(),
                context.locals.as_slice(),
                ty,
                expr,
            )?;
            Ok(Some(value))
        }
    }
}

// The initialiser of the local with this number, in whose scope it stands.
#[tactic(auto, using(c_answers::proofs::After::after_laws), unfolding(crate::specs::Locals::initialised))]
fn initialised(
    alloc: Global,
    context: &mut Context,
    decl: &VarDecl,
    number: u32,
    ty: &CoreType,
) -> Result<Declared, Stop>
    ensures { Gives (λ d. (view_declared d, context.new)) result (spec.initialised context.old (view_var decl.now) number ty.now) }
{
    context.scope.local.initialising = Some(number);
    let init = initial_value(alloc, context, ty, &decl.init)?;
    context.scope.local.initialising = None;
    Ok(Declared {
        local: number,
        init,
        line: decl.line,
    })
}

#[tactic(auto, using(c_answers::proofs::After::after_laws), unfolding(crate::specs::Locals::local))]
fn local(alloc: Global, context: &mut Context, decl: &VarDecl) -> Result<Declared, Stop>
    ensures { Gives (λ d. (view_declared d, context.new)) result (spec.local context.old (view_var decl.now)) }
{
    let resolved = local_type(alloc, context, decl)?;
    let ty = resolved.ty.copy(alloc)?;
    let number = declare(alloc, context, decl, resolved)?;
    initialised(alloc, context, decl, number, &ty)
}

/// The locals that are declared together, in order; each is in scope from its declarator on.
#[tactic(auto, using(crate::proofs::Declarators::local_laws))]
pub(crate) fn locals(
    alloc: Global,
    context: &mut Context,
    decls: &[VarDecl],
) -> Result<List<Declared>, Stop>
    ensures { Gives (λ ds. (map view_declared ds, context.new)) result (spec.locals context.old (map view_var decls.now)) }
{
    let mut done = List::new(alloc);
    for i in 0..decls.len() {
        let declared = local(alloc, context, &decls[i])?;
        done.push(declared)?;
    }
    Ok(done)
}
