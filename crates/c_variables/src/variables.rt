// Declarators (C11 6.7.6).
ghost use Rattle.std.specs.Prelude.{◌≡◌, IfOk};
ghost use Rattle.c_answers.specs.Answers.{Gives};
ghost use Rattle.c_exprs.specs.Typing.{around};
ghost use Rattle.c_syntax.specs.View.{view_ctype, view_var};
ghost use Rattle.c_variables.specs.Variables as spec;

use c_answers::refused;
use c_contexts::constant_number;
use c_kinds::Machdep;
use c_rules::is_scalar;
use c_scopes::{
    File, Object, Resolved, Scope, array_meaning, named, parameter_of, sized_parameter, type_of,
};
use c_syntax::{CType, TypeShape, VarDecl};
use std::alloc::Global;
use wp_base::{Line, NoMemory, Rule, Stop};

/// The type that is spelled, none for no type of the language, or its first fault: a name in it that isn't declared, or the declared name, where
/// that isn't new.
#[tactic(auto, using(c_answers::proofs::After::after_laws))]
pub fn named_here(
    alloc: Global,
    file: &File,
    is_free: bool,
    line: Line,
    ty: &CType,
) -> Result<Option<Resolved>, Stop>
    ensures { Gives (λ t. t) result (spec.named_here file.now is_free line (view_ctype ty.now)) }
{
    let ty = named(alloc, file, line, ty)?;
    if is_free {
        Ok(ty)
    } else {
        Err(refused(Rule::Name, line))
    }
}

/// The type of a variable, a field or a typedef name, or its first fault; `is_free` tells whether its name isn't declared already. `sizes` has
/// the cells of each struct of the file.
#[tactic(auto, using(c_answers::proofs::After::after_laws, c_syntax::proofs::Equations::expr_laws, c_syntax::proofs::Lines::line_is), unfolding(crate::specs::Variables::variable))]
pub fn variable(
    alloc: Global,
    model: Machdep,
    sizes: &[u32],
    scope: &Scope,
    is_free: bool,
    line: Line,
    ty: &CType,
) -> Result<Resolved, Stop>
    ensures { Gives (λ t. t) result (spec.variable (around model sizes.now scope.now) is_free line (view_ctype ty.now)) }
{
    match ty.look() {
        TypeShape::Array(of, length) => {
            let element = named_here(alloc, &scope.file, is_free, line, of.get())?;
            let number = constant_number(alloc, model, sizes, scope, length.get())?;
            array_meaning(line, length.get().line, element, number)
        }
        TypeShape::Leaf(_) | TypeShape::Pointer(_) | TypeShape::Const(_) => {
            let ty = named_here(alloc, &scope.file, is_free, line, ty)?;
            type_of(line, ty)
        }
    }
}

fn scalar_parameter(line: Line, ty: Resolved) -> Result<Resolved, Stop>
    ensures { Gives (λ t. t) result (spec.scalar_parameter line ty) }
{
    if is_scalar(&ty.ty) {
        Ok(ty)
    } else {
        Err(refused(Rule::Typing, line))
    }
}

// A parameter that isn't spelled as an array.
#[tactic(auto, using(c_answers::proofs::After::after_laws))]
fn plain_parameter(
    alloc: Global,
    file: &File,
    is_free: bool,
    line: Line,
    ty: &CType,
) -> Result<Resolved, Stop>
    ensures { Gives (λ t. t) result (spec.plain_parameter file.now is_free line (view_ctype ty.now)) }
{
    let ty = named_here(alloc, file, is_free, line, ty)?;
    let ty = type_of(line, ty)?;
    let ty = parameter_of(alloc, ty)?;
    scalar_parameter(line, ty)
}

/// The type of a parameter, which is a scalar, or its first fault. An array is a pointer to its elements.
#[tactic(auto, using(c_answers::proofs::After::after_laws, c_syntax::proofs::Equations::expr_laws, c_syntax::proofs::Lines::line_is), unfolding(crate::specs::Variables::parameter))]
pub fn parameter(
    alloc: Global,
    model: Machdep,
    sizes: &[u32],
    scope: &Scope,
    is_free: bool,
    line: Line,
    ty: &CType,
) -> Result<Resolved, Stop>
    ensures { Gives (λ t. t) result (spec.parameter (around model sizes.now scope.now) is_free line (view_ctype ty.now)) }
{
    match ty.look() {
        TypeShape::Array(of, length) => {
            let element = named_here(alloc, &scope.file, is_free, line, of.get())?;
            let number = constant_number(alloc, model, sizes, scope, length.get())?;
            sized_parameter(alloc, line, length.get().line, element, number)
        }
        TypeShape::Leaf(_) | TypeShape::Pointer(_) | TypeShape::Const(_) => {
            plain_parameter(alloc, &scope.file, is_free, line, ty)
        }
    }
}

/// The object that a declarator declares, of this type.
pub fn object_of(alloc: Global, decl: &VarDecl, ty: Resolved) -> Result<Object, NoMemory>
    ensures { IfOk result (λ object. object ≡ spec.object_with (view_var decl.now) ty) }
{
    Ok(Object {
        name: decl.name.copy(alloc)?,
        ty: ty.ty,
        is_const: ty.is_const,
        line: decl.line,
    })
}
