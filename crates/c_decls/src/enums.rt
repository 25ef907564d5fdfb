// Declarations of enumerated types (C11 6.7.2.2) and of typedef names (6.7.8).
ghost use Rattle.std.specs.Prelude.{◌≡◌, map, OnOk};
ghost use Rattle.c_answers.specs.Answers.{Gives};
ghost use Rattle.c_decls.specs.Enums as spec;
ghost use Rattle.c_exprs.specs.Typing.{around};
ghost use Rattle.c_syntax.specs.View.{view_enum, view_expr, view_var};
ghost use Rattle.std.specs.Option.{option_map};

use c_answers::refused;
use c_contexts::constant_number;
use c_kinds::{Machdep, range};
use c_scopes::File;
use c_syntax::{EnumDecl, Expr, VarDecl};
use c_variables::{Context, variable};
use std::alloc::Global;
use wp_base::{Kind, Line, NoMemory, Rule, Stop, Str};

/// What is known of the enumerators so far: the number of the next one, where none is written, and whether one is negative.
#[derive(Clone, Copy)]
pub struct Counted {
    pub next: i128,
    pub has_negative: bool,
}

// ---- enumerators

// The number of an enumerator as written, or else the next one.
fn number_of(
    alloc: Global,
    context: &Context,
    next: i128,
    init: &Option<Expr>,
) -> Result<i128, Stop>
    ensures { Gives (λ z. z) result (spec.number_of (around context.now.model context.now.sizes context.now.scope) next (option_map view_expr init.now)) }
{
    match init {
        None => Ok(next),
        Some(expr) => constant_number(
            alloc,
            context.model,
            context.sizes.as_slice(),
            &context.scope,
            expr,
        ),
    }
}

// The number, where it is one of `int`.
fn as_int(model: Machdep, line: Line, number: i128) -> Result<i32, Stop>
    ensures { Gives (λ z. z) result (spec.as_int model line number) }
{
    let range = range(model, Kind::Int);
    if number < range.low || number > range.high {
        return Err(refused(Rule::Typing, line));
    }
    Ok(number as i32)
}

// The number of an enumerator, or its first fault.
#[tactic(auto, using(c_answers::proofs::After::after_laws), unfolding(crate::specs::Enums::enumerator))]
fn enumerator(alloc: Global, context: &Context, next: i128, decl: &VarDecl) -> Result<i32, Stop>
    ensures { Gives (λ z. z) result (spec.enumerator context.now next (view_var decl.now)) }
{
    if context.scope.file.names.find(&decl.name).is_some() {
        return Err(refused(Rule::Name, decl.line));
    }
    let number = number_of(alloc, context, next, &decl.init)?;
    as_int(context.model, decl.line, number)
}

// Declares an enumerator; what is known of all so far.
#[tactic(auto, using(c_answers::proofs::After::after_laws), unfolding(crate::specs::Enums::item))]
fn declare_item(
    alloc: Global,
    context: &mut Context,
    counted: Counted,
    decl: &VarDecl,
) -> Result<Counted, Stop>
    ensures { Gives (λ counted. (context.new, counted)) result (spec.item (context.old, counted) (view_var decl.now)) }
{
    let number = i128::from(enumerator(alloc, context, counted.next, decl)?);
    context
        .scope
        .file
        .declare_enumerator(alloc, &decl.name, number)?;
    Ok(Counted {
        next: number + 1,
        has_negative: counted.has_negative || number < 0,
    })
}

// Declares all enumerators of a type.
#[tactic(auto, using(crate::proofs::Turns::turn_laws))]
fn declare_items(alloc: Global, context: &mut Context, decls: &[VarDecl]) -> Result<Counted, Stop>
    ensures { Gives (λ counted. (context.new, counted)) result (spec.items context.old (map view_var decls.now)) }
{
    let mut counted = Counted {
        next: 0,
        has_negative: false,
    };
    for decl in decls {
        counted = declare_item(alloc, context, counted, decl)?;
    }
    Ok(counted)
}

// ---- enumerated types

fn enum_kind(has_negative: bool) -> Kind
    ensures { result ≡ spec.enum_kind has_negative }
{
    if has_negative { Kind::Int } else { Kind::UInt }
}

fn is_new_tag(file: &File, name: &Option<Str>) -> bool
    ensures { result ≡ spec.is_new_tag file.now name.now }
{
    match name {
        None => true,
        Some(name) => file.tags.find(name).is_none(),
    }
}

fn declare_tag(
    alloc: Global,
    context: &mut Context,
    name: &Option<Str>,
    kind: Kind,
) -> Result<(), NoMemory>
    ensures { OnOk result (context.new ≡ spec.with_tag context.old name.now kind) }
{
    match name {
        None => {}
        Some(name) => {
            context.scope.file.declare_enum(alloc, name, kind)?;
        }
    }
    Ok(())
}

/// Declares an enumerated type with its enumerators, or tells the first fault: its tag is declared already, or that of an enumerator. After a
/// fault the context may only be dropped.
#[tactic(auto, using(c_answers::proofs::After::after_laws), unfolding(crate::specs::Enums::enum_declared))]
pub fn enum_declared(alloc: Global, context: &mut Context, decl: &EnumDecl) -> Result<(), Stop>
    ensures { Gives (λ _. context.new) result (spec.enum_declared context.old (view_enum decl.now)) }
{
    if !is_new_tag(&context.scope.file, &decl.name) {
        return Err(refused(Rule::Name, decl.line));
    }
    let counted = declare_items(alloc, context, decl.items.as_slice())?;
    declare_tag(alloc, context, &decl.name, enum_kind(counted.has_negative))?;
    Ok(())
}

// ---- typedef names

/// Declares a typedef name, or tells the first fault: the name is declared already, or that of its type. After a fault the context may only be
/// dropped.
#[tactic(auto, using(c_answers::proofs::After::after_laws), unfolding(crate::specs::Enums::typedef_declared))]
pub fn typedef_declared(alloc: Global, context: &mut Context, decl: &VarDecl) -> Result<(), Stop>
    ensures { Gives (λ _. context.new) result (spec.typedef_declared context.old (view_var decl.now)) }
{
    let is_new = context.scope.file.names.find(&decl.name).is_none();
    let ty = variable(
        alloc,
        context.model,
        context.sizes.as_slice(),
        &context.scope,
        is_new,
        decl.line,
        &decl.ty,
    )?;
    context.scope.file.declare_typedef(alloc, &decl.name, ty)?;
    Ok(())
}
