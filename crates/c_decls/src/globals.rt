// Declarations of variables of the file (C11 6.7, 6.9.2).
ghost use Rattle.std.specs.Prelude.{◌≡◌, map, slice_get, slice_set, OnOk};
ghost use Rattle.std.specs.Option.{option_map};
ghost use Rattle.c_answers.specs.Answers.{Gives};
ghost use Rattle.c_decls.specs.Globals as spec;
ghost use Rattle.c_decls.specs.Globals.{initialised, state, view_inits};
ghost use Rattle.c_syntax.specs.View.{view_expr, view_var};
ghost use Rattle.typed_prog.specs.Types.{same_star};
ghost use Rattle.typed_prog.specs.View.{view_value};

use crate::constants::is_constant;
use c_answers::refused;
use c_contexts::initialiser;
use c_rules::is_scalar;
use c_scopes::{Object, Resolved, Symbol, extent};
use c_syntax::{Expr, VarDecl};
use c_variables::{Context, object_of, variable};
use name_table::Table;
use std::alloc::Global;
use std::mem;
use typed_prog::{CoreType, Value, Variable};
use wp_base::{Line, List, NoMemory, Rule, Stop, Str};

// ---- what the name stands for so far

/// What a name of the file stands for where a variable is declared with it: nothing yet, the variable with this number, or something else.
#[derive(Clone, Copy)]
pub enum Earlier {
    Nothing,
    Global(u32),
    Other,
}

fn earlier_of(context: &Context, name: &Str) -> Earlier
    ensures { result ≡ spec.earlier_of context.now name.now }
{
    match context.scope.file.names.find(name) {
        None => Earlier::Nothing,
        Some(Symbol::Object(variable)) => match variable {
            Variable::Global(number) => Earlier::Global(number),
            Variable::Local(_) => Earlier::Other,
        },
        Some(Symbol::Function(_)) => Earlier::Other,
        Some(Symbol::Enumerator(_)) => Earlier::Other,
        Some(Symbol::Typedef(_)) => Earlier::Other,
    }
}

fn may_declare(earlier: Earlier) -> bool
    ensures { result ≡ spec.may_declare earlier }
{
    match earlier {
        Earlier::Nothing => true,
        Earlier::Global(_) => true,
        Earlier::Other => false,
    }
}

// The number of the variable; that of a new one is the next.
fn place_of(context: &Context, name: &Str) -> usize
    ensures { result ≡ spec.place_of context.now name.now }
{
    match earlier_of(context, name) {
        Earlier::Nothing => context.scope.file.globals.len(),
        Earlier::Global(number) => number as usize,
        Earlier::Other => context.scope.file.globals.len(),
    }
}

// ---- declared again

fn is_same_constness(first: bool, second: bool) -> bool
    ensures { result ≡ same_star first second }
{
    if first { second } else { !second }
}

fn is_same_object(globals: &List<Object>, number: u32, ty: &Resolved) -> bool
    ensures { result ≡ spec.is_same_object ty.now (slice_get globals.now number) }
{
    match globals.get(number as usize) {
        None => false,
        Some(object) => {
            ty.ty.is_same(&object.ty) && is_same_constness(ty.is_const, object.is_const)
        }
    }
}

#[tactic(auto, using(crate::proofs::Initials::viewed_there))]
fn has_value(inits: &List<Option<Value>>, number: u32) -> bool
    ensures { result ≡ spec.has_value (slice_get (view_inits inits.now) number) }
{
    match inits.get(number as usize) {
        None => false,
        Some(init) => init.is_some(),
    }
}

// Whether what the name stands for so far may be declared again with this type, and with an initialiser or not.
fn agrees(
    context: &Context,
    inits: &List<Option<Value>>,
    with_init: bool,
    ty: &Resolved,
    earlier: Earlier,
) -> bool
    ensures { result ≡ spec.agrees context.now (view_inits inits.now) with_init ty.now earlier }
{
    match earlier {
        Earlier::Nothing => true,
        Earlier::Global(number) => {
            is_same_object(&context.scope.file.globals, number, ty)
                && !(with_init && has_value(inits, number))
        }
        Earlier::Other => true,
    }
}

fn agreed(
    context: &Context,
    inits: &List<Option<Value>>,
    decl: &VarDecl,
    earlier: Earlier,
    ty: Resolved,
) -> Result<Resolved, Stop>
    ensures { Gives (λ t. t) result (spec.agreed context.now (view_inits inits.now) (view_var decl.now) earlier ty) }
{
    if agrees(context, inits, decl.init.is_some(), &ty, earlier) {
        Ok(ty)
    } else {
        Err(refused(Rule::Name, decl.line))
    }
}

// ---- the variable

#[tactic(auto, using(c_answers::proofs::After::after_laws))]
fn held_type(
    alloc: Global,
    context: &Context,
    decl: &VarDecl,
    ty: Resolved,
) -> Result<Resolved, Stop>
    ensures { Gives (λ t. t) result (spec.held_type context.now (view_var decl.now) ty) }
{
    extent(alloc, &context.scope.file.structs, decl.line, &ty)?;
    Ok(ty)
}

// The type of a variable, once what its name stands for agrees.
#[tactic(auto, using(c_answers::proofs::After::after_laws), unfolding(crate::specs::Globals::global_type))]
fn global_type(
    alloc: Global,
    context: &Context,
    inits: &List<Option<Value>>,
    decl: &VarDecl,
) -> Result<Resolved, Stop>
    ensures { Gives (λ t. t) result (spec.global_type context.now (view_inits inits.now) (view_var decl.now)) }
{
    let earlier = earlier_of(context, &decl.name);
    let ty = variable(
        alloc,
        context.model,
        context.sizes.as_slice(),
        &context.scope,
        may_declare(earlier),
        decl.line,
        &decl.ty,
    )?;
    let ty = agreed(context, inits, decl, earlier, ty)?;
    held_type(alloc, context, decl, ty)
}

// Declares the variable with its place for an initialiser, unless it is declared.
#[tactic(auto, using(crate::proofs::Initials::one_place_more))]
fn declare_global(
    alloc: Global,
    context: &mut Context,
    taken: &Table<bool>,
    inits: &mut List<Option<Value>>,
    decl: &VarDecl,
    ty: Resolved,
) -> Result<(), NoMemory>
    ensures context { OnOk result (context.new ≡ spec.with_global taken.now context.old (view_var decl.now) ty) }
    ensures inits { OnOk result (view_inits inits.new ≡ spec.with_place context.old (view_inits inits.old) (view_var decl.now)) }
{
    let is_plain = is_scalar(&ty.ty) && taken.find(&decl.name).is_none();
    let object = object_of(alloc, decl, ty)?;
    let is_new = context.scope.file.declare_object(alloc, object)?;
    if is_new {
        context.globals.push(is_plain)?;
        inits.push(None)?;
    }
    Ok(())
}

// ---- its initialiser

fn as_constant(line: Line, value: Value) -> Result<Value, Stop>
    ensures { Gives view_value result (spec.as_constant line (view_value value)) }
{
    if is_constant(&value) {
        Ok(value)
    } else {
        Err(refused(Rule::Typing, line))
    }
}

// The value of an initialiser, which is a constant.
#[tactic(auto, using(c_answers::proofs::After::after_laws, c_syntax::proofs::Lines::line_is), unfolding(crate::specs::Globals::initial_value))]
fn initial_value(
    alloc: Global,
    context: &Context,
    ty: &CoreType,
    expr: &Expr,
) -> Result<Value, Stop>
    ensures { Gives view_value result (spec.initial_value context.now ty.now (view_expr expr.now)) }
{
    let value = initialiser(
        alloc,
        context.model,
        context.sizes.as_slice(),
        &context.scope,
        context.globals.as_slice(),
        context.locals.as_slice(),
        ty,
        expr,
    )?;
    as_constant(expr.line, value)
}

// Puts a value into its place.
#[tactic(auto, using(crate::proofs::Initials::put_laws))]
fn put_init(alloc: Global, inits: &mut List<Option<Value>>, number: usize, value: Value)
    ensures { view_inits inits.new ≡ slice_set (view_inits inits.old) number (Some (view_value value)) }
{
    let mut places = mem::replace(inits, List::new(alloc)).into_vec();
    if number < places.len() {
        places[number] = Some(value);
    }
    *inits = List::from_vec(places);
}

#[tactic(auto, using(c_answers::proofs::After::after_laws))]
fn initialise(
    alloc: Global,
    context: &Context,
    inits: &mut List<Option<Value>>,
    number: usize,
    ty: &CoreType,
    init: &Option<Expr>,
) -> Result<(), Stop>
    ensures { Gives (λ _. state context.now inits.new) result (initialised context.now (view_inits inits.old) number ty.now (option_map view_expr init.now)) }
{
    match init {
        None => Ok(()),
        Some(expr) => {
            let value = initial_value(alloc, context, ty, expr)?;
            put_init(alloc, inits, number, value);
            Ok(())
        }
    }
}

// ---- declarators

// One variable.
#[tactic(auto, using(c_answers::proofs::After::after_laws), unfolding(crate::specs::Globals::global))]
fn global(
    alloc: Global,
    context: &mut Context,
    taken: &Table<bool>,
    inits: &mut List<Option<Value>>,
    decl: &VarDecl,
) -> Result<(), Stop>
    ensures { Gives (λ _. state context.new inits.new) result (spec.global taken.now (state context.old inits.old) (view_var decl.now)) }
{
    let ty = global_type(alloc, context, inits, decl)?;
    let of = ty.ty.copy(alloc)?;
    let number = place_of(context, &decl.name);
    declare_global(alloc, context, taken, inits, decl, ty)?;
    initialise(alloc, context, inits, number, &of, &decl.init)
}

/// Declares the variables of a declaration in order, or tells the first fault. `taken` has the names of the file whose address is taken anywhere in
/// it, and `inits` the initialiser of each variable by its number. After a fault context and initialisers may only be dropped.
#[tactic(auto, using(crate::proofs::Turns::turn_laws))]
pub fn globals_declared(
    alloc: Global,
    context: &mut Context,
    taken: &Table<bool>,
    inits: &mut List<Option<Value>>,
    decls: &[VarDecl],
) -> Result<(), Stop>
    ensures { Gives (λ _. state context.new inits.new) result (spec.globals_declared taken.now context.old (view_inits inits.old) (map view_var decls.now)) }
{
    for decl in decls {
        global(alloc, context, taken, inits, decl)?;
    }
    Ok(())
}
