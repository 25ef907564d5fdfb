// Functions (C11 6.9.1).
ghost use Rattle.std.specs.Prelude.{◌≡◌, IfOk, OnOk, map};
ghost use Rattle.std.specs.Option.{option_map};
ghost use Rattle.c_answers.specs.Answers.{Gives};
ghost use Rattle.c_functions.specs.Functions as spec;
ghost use Rattle.c_functions.specs.View.{view_functions};
ghost use Rattle.c_syntax.specs.View.{view_function, view_stmt};
ghost use Rattle.typed_unit.specs.View.{view_body, view_part};

use crate::headers::{header, number_of};
use crate::params::copies;
use c_scopes::{Local, Object};
use c_stmts::body;
use c_syntax::{Function, Stmt};
use c_variables::Context;
use name_table::Table;
use std::alloc::Global;
use std::mem;
use typed_prog::CoreType;
use typed_unit::{Annotated, Body, Part};
use wp_base::{List, NoMemory, Stop};

/// What the functions of a file have left so far. Where memory is lacking, or at a fault, this may only be dropped.
#[derive(Drop)]
pub struct Functions<'a> {
    /// In the order of the text.
    pub bodies: List<Body<'a>>,
    /// The declarations with annotations, in the order of the text.
    pub parts: List<Part<'a>>,
}

fn declared_number(context: &Context, function: &Function) -> u32
    ensures { result ≡ spec.declared_number context.now (view_function function.now) }
{
    number_of(&context.scope.file, &function.name).unwrap_or(0)
}

// Goes out of a function; what it had as locals, and which of these are plain.
fn leave(alloc: Global, context: &mut Context) -> (List<Object>, List<bool>)
    ensures { (context.new ≡ spec.outside context.old) × (result.0 ≡ context.old.scope.local.objects) × (result.1 ≡ context.old.locals) }
{
    let local = mem::replace(&mut context.scope.local, Local::new(alloc));
    let plain = mem::replace(&mut context.locals, List::new(alloc));
    context.taken = List::new(alloc);
    context.result = CoreType::void(alloc);
    (local.into_objects(), plain)
}

// The body of the function with this number, where it has one.
#[tactic(auto, using(c_answers::proofs::After::after_laws))]
fn with_stmt<'a>(
    alloc: Global,
    context: &mut Context,
    bodies: &mut List<Body<'a>>,
    function: &'a Function,
    number: u32,
) -> Result<(), Stop>
    requires { number ≡ spec.declared_number context.now (view_function function.now) }
    ensures { Gives (λ _. (map view_body bodies.new, context.new)) result (spec.with_stmt context.old (map view_body bodies.old) (view_function function.now) (option_map view_stmt function.now.body)) }
{
    match &function.body {
        None => {
            leave(alloc, context);
        }
        Some(stmt) => {
            let stmt = body(alloc, context, stmt)?;
            let (locals, plain) = leave(alloc, context);
            bodies.push(Body {
                function: number,
                locals,
                plain,
                stmt,
                line: function.line,
                end: function.end,
            })?;
        }
    }
    Ok(())
}

// The declaration with its contract, whose parameters are in scope; so many names and tags are declared before it.
fn part_of<'a>(
    alloc: Global,
    context: &Context,
    names: u32,
    tags: u32,
    function: &'a Function,
) -> Result<Part<'a>, NoMemory>
    ensures { IfOk result (λ part. view_part part ≡ spec.part_at names tags context.now (view_function function.now)) }
{
    let number = declared_number(context, function);
    let params = copies(alloc, &context.scope.local.objects)?;
    Ok(Part {
        names,
        tags,
        decl: Annotated::Function(number, params, &function.contract, function.body.is_some()),
    })
}

// The body, and then the declaration among those with annotations.
#[tactic(auto, using(c_answers::proofs::After::after_laws, crate::proofs::Parts::more_part), unfolding(crate::specs::Functions::finished))]
fn finished<'a>(
    alloc: Global,
    context: &mut Context,
    so_far: &mut Functions<'a>,
    part: Part<'a>,
    function: &'a Function,
) -> Result<(), Stop>
    ensures { Gives (λ _. (context.new, view_functions so_far.new)) result (spec.finished context.old (view_functions so_far.old) (view_part part.entry) (view_function function.now)) }
{
    let number = declared_number(context, function);
    with_stmt(alloc, context, &mut so_far.bodies, function, number)?;
    so_far.parts.push(part)?;
    Ok(())
}

/// Declares a function, with its body where it has one, or gives its first fault. `bodied` has the names of the functions that have a body
/// somewhere in the file; `taken` tells of the function's parameters and locals whose address is taken.
#[tactic(auto, using(c_answers::proofs::After::after_laws), unfolding(crate::specs::Functions::function))]
pub fn declare_function<'a>(
    alloc: Global,
    context: &mut Context,
    so_far: &mut Functions<'a>,
    bodied: &Table<bool>,
    taken: List<bool>,
    function: &'a Function,
) -> Result<(), Stop>
    ensures { Gives (λ _. (context.new, view_functions so_far.new)) result (spec.function context.old (view_functions so_far.old) bodied.now taken (view_function function.now)) }
{
    let names = count(context.scope.file.names.len())?;
    let tags = count(context.scope.file.tags.len())?;
    header(alloc, context, bodied, &so_far.bodies, taken, function)?;
    let part = part_of(alloc, context, names, tags, function)?;
    finished(alloc, context, so_far, part, function)
}

/// A number of names. There are fewer than a number has room for, since each has a token of the text.
pub fn count(names: usize) -> Result<u32, NoMemory>
    ensures { IfOk result (λ number. number ≡ names) }
{
    if names > u32::MAX as usize {
        return Err(NoMemory);
    }
    Ok(names as u32)
}
