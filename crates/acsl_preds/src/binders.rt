// The names that a predicate binds (ACSL 2.2.2).
ghost use Rattle.std.specs.Prelude.{◌≡◌, OnOk, map, take};
ghost use Rattle.acsl_names.specs.Names.{view_around};
ghost use Rattle.acsl_preds.specs.Binders as spec;
ghost use Rattle.c_answers.specs.Answers.{Gives};
ghost use Rattle.c_syntax.specs.View.{view_ctype, view_var};
ghost use Rattle.name_table.specs.Nesting.{around as scopes_around};

use acsl_guards::{Guard, is_integer};
use acsl_names::{Around, Bound};
use acsl_terms::misshapen;
use acsl_trees::TermType;
use c_answers::refused;
use c_scopes::Resolved;
use c_syntax::{CType, VarDecl};
use std::alloc::Global;
use std::mem::replace;
use wp_base::{Kind, Line, List, NoMemory, Rule, Stop, Str};

/// What a binder goes over: all numbers of an integer kind, or the range that a guard gives.
#[derive(Clone, Copy)]
pub enum Over {
    Kind(Kind),
    Guarded(Guard),
}

// ---- scopes

/// A quantifier or a `\let` begins.
pub fn enter(alloc: Global, names: &mut Bound) -> Result<(), NoMemory>
    ensures { OnOk result (names.new ≡ spec.inside names.old) }
{
    names.scopes.enter(alloc)
}

/// One name more, with the next number.
pub fn bind(alloc: Global, names: &mut Bound, name: &Str, ty: TermType) -> Result<(), NoMemory>
    ensures { OnOk result (names.new ≡ spec.with_bound names.old name.now ty) }
{
    let count = names.types.len();
    if count > u32::MAX as usize {
        return Err(NoMemory);
    }
    names.scopes.declare(alloc, name, count as u32)?;
    names.types.push(ty)?;
    Ok(())
}

/// It ends: the names are those around it, of which there are so many.
pub fn leave(alloc: Global, names: &mut Bound, count: usize)
    ensures { names.new ≡ spec.left names.old count }
{
    names.scopes.leave();
    let mut types = replace(&mut names.types, List::new(alloc)).into_vec();
    types.truncate(count);
    names.types = List::from_vec(types);
}

// ---- binders

fn over_kind(line: Line, kind: Option<Kind>) -> Result<Over, Stop>
    ensures { Gives (λ x. x) result (spec.over_kind line kind) }
{
    match kind {
        Some(kind) => Ok(Over::Kind(kind)),
        None => Err(misshapen(line)),
    }
}

fn over_type(line: Line, named: Option<Resolved>) -> Result<Over, Stop>
    ensures { Gives (λ x. x) result (spec.over_type line named) }
{
    match named {
        Some(ty) => over_kind(line, ty.ty.kind()),
        None => Err(misshapen(line)),
    }
}

fn over_guard(line: Line, guard: Option<Guard>) -> Result<Over, Stop>
    ensures { Gives (λ x. x) result (spec.over_guard line guard) }
{
    match guard {
        Some(guard) => Ok(Over::Guarded(guard)),
        None => Err(misshapen(line)),
    }
}

#[tactic(auto, using(c_answers::proofs::After::after_laws))]
fn over_named(alloc: Global, around: &Around<'_>, line: Line, ty: &CType) -> Result<Over, Stop>
    ensures { Gives (λ x. x) result (spec.over_named (view_around around.now) line (view_ctype ty.now)) }
{
    let named = around.type_named(alloc, line, ty)?;
    over_type(line, named)
}

fn over_of(
    alloc: Global,
    around: &Around<'_>,
    line: Line,
    ty: &CType,
    guard: Option<Guard>,
) -> Result<Over, Stop>
    ensures { Gives (λ x. x) result (spec.over_by (view_around around.now) line (view_ctype ty.now) guard) }
{
    if is_integer(ty) {
        over_guard(line, guard)
    } else {
        over_named(alloc, around, line, ty)
    }
}

fn binder_over(
    alloc: Global,
    around: &Around<'_>,
    names: &Bound,
    binder: &VarDecl,
    guard: Option<Guard>,
) -> Result<Over, Stop>
    ensures { Gives (λ x. x) result (spec.binder_over (view_around around.now) names.now (view_var binder.now) guard) }
{
    if !names.scopes.is_free(&binder.name) {
        return Err(refused(Rule::Name, binder.line));
    }
    over_of(alloc, around, binder.line, &binder.ty, guard)
}

// One binder, which is in scope behind it.
#[tactic(auto, using(c_answers::proofs::After::after_laws))]
fn binder(
    alloc: Global,
    around: &Around<'_>,
    names: &mut Bound,
    binder: &VarDecl,
    guard: Option<Guard>,
) -> Result<Over, Stop>
    ensures { Gives (λ x. (x, names.new)) result (spec.one_binder (view_around around.now) names.old (view_var binder.now) guard) }
{
    let over = binder_over(alloc, around, names, binder, guard)?;
    bind(alloc, names, &binder.name, TermType::Integer)?;
    Ok(over)
}

/// The binders of a quantifier in order, each with its guard: what they go over, and the names with theirs.
#[tactic(auto, using(crate::proofs::Binding::binder_laws))]
pub(crate) fn binders(
    alloc: Global,
    around: &Around<'_>,
    names: &mut Bound,
    decls: &[VarDecl],
    guards: &[Option<Guard>],
) -> Result<List<Over>, Stop>
    ensures { Gives (λ xs. (xs, names.new)) result (spec.binders (view_around around.now) names.old (map view_var decls.now) guards.now) }
{
    let mut found = List::new(alloc);
    for i in 0..decls.len() {
        if i >= guards.len() {
            return Ok(found);
        }
        let decl = &decls[i];
        let guard = guards[i];
        let over = binder(alloc, around, names, decl, guard)?;
        found.push(over)?;
    }
    Ok(found)
}
