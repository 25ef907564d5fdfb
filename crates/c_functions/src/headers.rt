// All of a function but its body (C11 6.7.6.3, 6.9.1).
ghost use Rattle.std.specs.Prelude.{◌≡◌, Some, IfOk, OnOk, map};
ghost use Rattle.std.specs.Option.{option_copied};
ghost use Rattle.c_answers.specs.Answers.{Answer, Gives};
ghost use Rattle.c_functions.specs.Functions as spec;
ghost use Rattle.c_syntax.specs.View.{view_ctype, view_function};
ghost use Rattle.c_variables.specs.declared.context.Context.{Context as Around};
ghost use Rattle.typed_unit.specs.View.{view_body};

use crate::params::{are_same, params, types_of};
use c_answers::refused;
use c_rules::is_scalar;
use c_scopes::{File, Local, Resolved, Signature, Symbol, type_of};
use c_syntax::{CType, Function};
use c_variables::{Context, named_here};
use name_table::Table;
use std::alloc::Global;
use typed_prog::CoreType;
use typed_unit::Body;
use wp_base::{Line, List, NoMemory, Rule, Stop, Str};

/// The number of a function with this name; none exactly where the name isn't that of a function.
pub(crate) fn number_of(file: &File, name: &Str) -> Option<u32>
    ensures { result ≡ spec.number_of file.now name.now }
{
    match file.names.find(name) {
        Some(Symbol::Function(number)) => Some(number),
        None => None,
        Some(Symbol::Object(_)) => None,
        Some(Symbol::Enumerator(_)) => None,
        Some(Symbol::Typedef(_)) => None,
    }
}

// Whether one of these bodies is that of the function with this number.
fn has_body_of(bodies: &[Body<'_>], number: u32) -> bool
    ensures { result ≡ spec.is_defined (map view_body bodies.now) (Some number) }
{
    for body in bodies {
        if body.function == number {
            return true;
        }
    }
    false
}

fn is_defined(bodies: &List<Body<'_>>, number: Option<u32>) -> bool
    ensures { result ≡ spec.is_defined (map view_body bodies.now) number }
{
    match number {
        None => false,
        Some(number) => has_body_of(bodies.as_slice(), number),
    }
}

fn is_open(file: &File, bodies: &List<Body<'_>>, has_body: bool, name: &Str) -> bool
    ensures { result ≡ spec.is_open file.now (map view_body bodies.now) has_body name.now }
{
    let number = number_of(file, name);
    let is_free = file.names.find(name).is_none();
    (is_free || number.is_some()) && !(has_body && is_defined(bodies, number))
}

fn result_with(line: Line, ty: Resolved) -> Result<CoreType, Stop>
    ensures { Gives (λ t. t) result (spec.result_with line ty) }
{
    if ty.ty.is_void() || is_scalar(&ty.ty) {
        Ok(ty.ty)
    } else {
        Err(refused(Rule::Typing, line))
    }
}

#[tactic(auto, using(c_answers::proofs::After::after_laws))]
fn result_type(
    alloc: Global,
    file: &File,
    is_open: bool,
    line: Line,
    ty: &CType,
) -> Result<CoreType, Stop>
    ensures { Gives (λ t. t) result (spec.result_type file.now is_open line (view_ctype ty.now)) }
{
    let ty = named_here(alloc, file, is_open, line, ty)?;
    let ty = type_of(line, ty)?;
    result_with(line, ty)
}

// Goes to the place of a function's parameters.
fn enter(
    alloc: Global,
    context: &mut Context,
    taken: List<bool>,
    returns: CoreType,
) -> Result<(), NoMemory>
    ensures { OnOk result (context.new ≡ spec.inside context.old taken returns) }
{
    let mut local = Local::new(alloc);
    local.enter(alloc)?;
    context.scope.local = local;
    context.locals = List::new(alloc);
    context.taken = taken;
    context.result = returns;
    Ok(())
}

fn signature_at(functions: &List<Signature>, number: Option<u32>) -> Option<&Signature>
    ensures { option_copied result ≡ spec.signature_at functions.now number }
{
    match number {
        None => None,
        Some(number) => functions.get(number as usize),
    }
}

// Whether the function that is declared, with its parameters in scope, is what it is declared as already.
fn agrees(context: &Context, line: Line, name: &Str, returns: &CoreType) -> Result<(), Stop>
    ensures { Gives (λ u. u) result (spec.agrees_with line (spec.signature_at context.now.scope.file.functions (spec.number_of context.now.scope.file name.now)) returns.now context.now.scope.local.objects) }
{
    let file = &context.scope.file;
    match signature_at(&file.functions, number_of(file, name)) {
        None => Ok(()),
        Some(signature) => {
            if signature.result.is_same(returns)
                && are_same(&signature.params, &context.scope.local.objects)
            {
                Ok(())
            } else {
                Err(refused(Rule::Name, line))
            }
        }
    }
}

fn with_body(line: Line, bodied: &Table<bool>, name: &Str) -> Result<(), Stop>
    ensures { Gives (λ u. u) result (spec.with_body line bodied.now name.now) }
{
    if bodied.find(name).is_none() {
        Err(refused(Rule::NoBody, line))
    } else {
        Ok(())
    }
}

fn with_declared(
    alloc: Global,
    context: &mut Context,
    function: &Function,
    returns: CoreType,
) -> Result<(), NoMemory>
    ensures { OnOk result (context.new ≡ spec.with_declared context.old (view_function function.now) returns) }
{
    let params = types_of(alloc, &context.scope.local.objects)?;
    let signature = Signature {
        name: function.name.copy(alloc)?,
        result: returns,
        params,
        line: function.line,
    };
    context.scope.file.declare_function(alloc, signature)?;
    Ok(())
}

// Declares the function, where its parameters gave what is handed in.
#[tactic(auto, using(c_answers::proofs::After::after_laws))]
fn header_of(
    alloc: Global,
    context: &mut Context,
    bodied: &Table<bool>,
    function: &Function,
    returns: CoreType,
    params: Result<(), Stop>,
) -> Result<(), Stop>
    ensures { (given : Answer Around) → Gives (λ _. context.old) params given → Gives (λ _. context.new) result (spec.header_of bodied.now (view_function function.now) returns given) }
{
    let line = function.line;
    match params {
        Err(Stop::NoMemory) => Err(Stop::NoMemory),
        Err(Stop::Refused(refusal)) => {
            with_body(line, bodied, &function.name)?;
            Err(Stop::Refused(refusal))
        }
        Ok(()) => {
            agrees(context, line, &function.name, &returns)?;
            with_body(line, bodied, &function.name)?;
            Ok(with_declared(alloc, context, function, returns)?)
        }
    }
}

/// All of a declaration but its body: its parameters are in scope, and the function is declared.
#[tactic(auto, using(c_answers::proofs::After::after_laws), unfolding(crate::specs::Functions::header))]
pub(crate) fn header(
    alloc: Global,
    context: &mut Context,
    bodied: &Table<bool>,
    bodies: &List<Body<'_>>,
    taken: List<bool>,
    function: &Function,
) -> Result<(), Stop>
    ensures { Gives (λ _. context.new) result (spec.header context.old bodied.now (map view_body bodies.now) taken (view_function function.now)) }
{
    let file = &context.scope.file;
    let is_open = is_open(file, bodies, function.body.is_some(), &function.name);
    let returns = result_type(alloc, file, is_open, function.line, &function.result)?;
    enter(alloc, context, taken, returns.copy(alloc)?)?;
    let params = params(alloc, context, function.params.as_slice());
    header_of(alloc, context, bodied, function, returns, params)
}
