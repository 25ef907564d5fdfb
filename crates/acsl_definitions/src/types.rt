// Types of parameters and of results (ACSL 2.6.1).
ghost use Rattle.std.specs.Prelude.{◌≡◌, IfOk};
ghost use Rattle.std.specs.Option.{option_map};
ghost use Rattle.acsl_definitions.specs.Definitions as spec;
ghost use Rattle.acsl_names.specs.Names.{view_around};
ghost use Rattle.c_answers.specs.Answers.{Gives};
ghost use Rattle.c_syntax.specs.View.{view_ctype};

use acsl_guards::is_integer;
use acsl_names::Around;
use acsl_trees::TermType;
use c_answers::refused;
use c_scopes::Resolved;
use c_syntax::CType;
use std::alloc::Global;
use typed_prog::CoreType;
use wp_base::{Line, List, NoMemory, Rule, Stop};

fn term_type(line: Line, ty: CoreType) -> Result<TermType, Stop>
    ensures { Gives (λ t. t) result (spec.term_type line ty) }
{
    if ty.kind().is_some() {
        return Ok(TermType::Integer);
    }
    if ty.is_pointer() {
        return Ok(TermType::Pointer(ty));
    }
    Err(refused(Rule::Typing, line))
}

fn resolved_type(line: Line, resolved: Option<Resolved>) -> Result<TermType, Stop>
    ensures { Gives (λ t. t) result (spec.resolved_type line resolved) }
{
    match resolved {
        Some(resolved) => term_type(line, resolved.ty),
        None => Err(refused(Rule::Typing, line)),
    }
}

#[tactic(auto, using(c_answers::proofs::After::after_laws))]
fn named_type(alloc: Global, around: &Around<'_>, line: Line, ty: &CType) -> Result<TermType, Stop>
    ensures { Gives (λ t. t) result (spec.named_type (view_around around.now) line (view_ctype ty.now)) }
{
    let named = around.type_named(alloc, line, ty)?;
    resolved_type(line, named)
}

/// The type of a parameter or of a result, as spelled.
pub(crate) fn spelled_type(
    alloc: Global,
    around: &Around<'_>,
    line: Line,
    ty: &CType,
) -> Result<TermType, Stop>
    ensures { Gives (λ t. t) result (spec.spelled_type (view_around around.now) line (view_ctype ty.now)) }
{
    if is_integer(ty) {
        Ok(TermType::Integer)
    } else {
        named_type(alloc, around, line, ty)
    }
}

/// The type of a logic function's value; a predicate has none.
#[tactic(auto, using(c_answers::proofs::After::after_laws))]
pub(crate) fn result_type(
    alloc: Global,
    around: &Around<'_>,
    line: Line,
    result_: &Option<CType>,
) -> Result<Option<TermType>, Stop>
    ensures { Gives (λ t. t) result (spec.result_by (view_around around.now) line (option_map view_ctype result_.now)) }
{
    match result_ {
        Some(ty) => Ok(Some(spelled_type(alloc, around, line, ty)?)),
        None => Ok(None),
    }
}

// ---- copies, which equal their sources

fn copied(alloc: Global, ty: &TermType) -> Result<TermType, NoMemory>
    ensures { IfOk result (λ copy. copy ≡ ty.now) }
{
    match ty {
        TermType::Integer => Ok(TermType::Integer),
        TermType::Pointer(ty) => Ok(TermType::Pointer(ty.copy(alloc)?)),
        TermType::Unknown => Ok(TermType::Unknown),
    }
}

/// A copy of the type of a value, where there is one.
pub(crate) fn result_copied(
    alloc: Global,
    ty: &Option<TermType>,
) -> Result<Option<TermType>, NoMemory>
    ensures { IfOk result (λ copy. copy ≡ ty.now) }
{
    match ty {
        Some(ty) => Ok(Some(copied(alloc, ty)?)),
        None => Ok(None),
    }
}

/// A copy of the types of parameters.
pub(crate) fn all_copied(alloc: Global, types: &List<TermType>) -> Result<List<TermType>, NoMemory>
    ensures { IfOk result (λ copy. copy ≡ types.now) }
{
    let mut copy = Vec::new(alloc);
    for ty in types.as_slice() {
        copy.push(copied(alloc, ty)?)?;
    }
    Ok(List::from_vec(copy))
}
