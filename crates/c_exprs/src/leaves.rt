// Constants, names, fields, and the types in casts.
ghost use Rattle.std.specs.Prelude.{◌≡◌, IfOk};
ghost use Rattle.c_answers.specs.Answers.{Gives};
ghost use Rattle.c_exprs.specs.Leaves as spec;
ghost use Rattle.c_scopes.specs.Declarations.{object_of};
ghost use Rattle.c_operands.specs.Operands.{view_operand};
ghost use Rattle.c_syntax.specs.View.{view_ctype};

use c_answers::refused;
use c_kinds::{Machdep, held, size_kind};
use c_machine::{bytes, token_constant};
use c_operands::{Operand, number};
use c_places::{Field, variable};
use c_scopes::{Resolved, Scope, Structure, Symbol, field_number, named, type_of};
use c_syntax::{CType, Token};
use std::alloc::Global;
use typed_prog::{Base, CoreType, Variable};
use wp_base::{Kind, Line, List, NoMemory, Rule, Stop, Str};

/// An integer constant of a kind.
pub(crate) fn integer(alloc: Global, kind: Kind, value: i128, line: Line) -> Operand
    ensures { view_operand result ≡ spec.integer kind value line }
{
    Operand::Value(number(alloc, kind, value, line), true)
}

/// A number as it is spelled (C11 6.4.4.1). One that no kind holds has no type.
#[tactic(auto, unfolding(crate::specs::Leaves::literal))]
pub(crate) fn literal(
    alloc: Global,
    model: Machdep,
    line: Line,
    token: &Token,
) -> Result<Operand, Stop>
    ensures { Gives view_operand result (spec.literal model line token.now.kind) }
{
    match token_constant(model, &token.kind) {
        None => Err(refused(Rule::Typing, line)),
        Some(constant) => match constant.value {
            None => Err(refused(Rule::Typing, line)),
            Some(value) => Ok(integer(alloc, constant.kind, value, line)),
        },
    }
}

fn declared(alloc: Global, scope: &Scope, line: Line, of: Variable) -> Result<Operand, Stop>
    ensures { Gives view_operand result (spec.declared line of (object_of scope.now of)) }
{
    match scope.object(of) {
        None => Err(refused(Rule::Typing, line)),
        Some(object) => Ok(variable(alloc, line, of, object.ty.copy(alloc)?, object.is_const)),
    }
}

/// A name (C11 6.5.1p2). A function is only called, and a type is no value.
#[tactic(auto, unfolding(crate::specs::Leaves::name))]
pub(crate) fn name(alloc: Global, scope: &Scope, line: Line, name: &Str) -> Result<Operand, Stop>
    ensures { Gives view_operand result (spec.name scope.now line name.now) }
{
    match scope.find(name) {
        None => Err(refused(Rule::Name, line)),
        Some(Symbol::Object(variable)) => declared(alloc, scope, line, variable),
        Some(Symbol::Enumerator(value)) => Ok(integer(alloc, Kind::Int, value, line)),
        Some(Symbol::Function(_)) => Err(refused(Rule::Typing, line)),
        Some(Symbol::Typedef(_)) => Err(refused(Rule::Typing, line)),
    }
}

fn field_by(alloc: Global, structure: &Structure, number: usize) -> Result<Option<Field>, NoMemory>
    ensures { IfOk result (λ f. f ≡ spec.field_at structure.now number) }
{
    let Some(member) = structure.fields.get(number) else {
        return Ok(None);
    };
    let Some(offset) = structure.layout.fields.get(number) else {
        return Ok(None);
    };
    let Ok(number) = u32::try_from(number) else {
        return Err(NoMemory);
    };
    Ok(Some(Field {
        number,
        offset: *offset,
        ty: member.ty.copy(alloc)?,
        is_const: member.is_const,
    }))
}

/// The field of this name of a struct of the file; none where the struct lacks it.
pub(crate) fn field_named(
    alloc: Global,
    scope: &Scope,
    name: &Str,
    structure: u32,
) -> Result<Option<Field>, NoMemory>
    ensures { IfOk result (λ f. f ≡ spec.field_named scope.now name.now structure) }
{
    let Some(structure) = scope.file.structs.get(structure as usize) else {
        return Ok(None);
    };
    match field_number(&structure.fields, name) {
        None => Ok(None),
        Some(number) => field_by(alloc, structure, number),
    }
}

/// The type of a cast whose operand has no fault; a pointer to `void` is one here alone.
pub(crate) fn cast_type(
    alloc: Global,
    line: Line,
    is_void_pointer: bool,
    named: Option<Resolved>,
) -> Result<CoreType, Stop>
    ensures { Gives (λ ty. ty) result (spec.cast_type_by line is_void_pointer named) }
{
    if is_void_pointer {
        let stars = Vec::from_array(alloc, [false])?;
        return Ok(CoreType {
            base: Base::Void,
            stars: List::from_vec(stars),
            count: None,
        });
    }
    Ok(type_of(line, named)?.ty)
}

fn scalar_bytes(model: Machdep, ty: &CoreType) -> Option<i128>
    ensures { result ≡ spec.scalar_bytes model ty.now }
{
    match ty.kind() {
        Some(kind) => Some(bytes(model, kind)),
        None => {
            if ty.is_pointer() {
                Some(bytes(model, Kind::Long))
            } else {
                None
            }
        }
    }
}

// So many elements of a size; no more than `sizeof` can tell.
#[tactic(auto, using(c_machine::proofs::Sizes::held_fits))]
fn elements(model: Machdep, size: Option<i128>, count: u32) -> Option<i128>
    ensures { result ≡ spec.elements model size count }
{
    let size = size?;
    let whole = size.checked_mul(i128::from(count))?;
    held(model, size_kind(model), whole)
}

fn type_bytes(alloc: Global, model: Machdep, ty: &CoreType) -> Result<Option<i128>, NoMemory>
    ensures { IfOk result (λ n. n ≡ spec.bytes_by model ty.now ty.now.count) }
{
    match ty.count {
        None => Ok(scalar_bytes(model, ty)),
        Some(count) => {
            let element = ty.element(alloc)?;
            Ok(elements(model, scalar_bytes(model, &element), count))
        }
    }
}

fn size_of_type(alloc: Global, model: Machdep, line: Line, of: Resolved) -> Result<Operand, Stop>
    ensures { Gives view_operand result (spec.size_of_type model line of) }
{
    match type_bytes(alloc, model, &of.ty)? {
        None => Err(refused(Rule::Typing, line)),
        Some(size) => Ok(integer(alloc, size_kind(model), size, line)),
    }
}

/// `sizeof` of a type (C11 6.5.3.4).
#[tactic(auto, using(c_answers::proofs::After::after_laws), unfolding(crate::specs::Leaves::size_of))]
pub(crate) fn size_of(
    alloc: Global,
    model: Machdep,
    scope: &Scope,
    line: Line,
    ty: &CType,
) -> Result<Operand, Stop>
    ensures { Gives view_operand result (spec.size_of model scope.now line (view_ctype ty.now)) }
{
    let named = named(alloc, &scope.file, line, ty)?;
    let ty = type_of(line, named)?;
    size_of_type(alloc, model, line, ty)
}
