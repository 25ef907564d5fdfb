// The definitions of a file, with the binders of what they stand for (ACSL 2.6).
ghost use Rattle.std.specs.Prelude.{◌≡◌, ◌∷◌, [], IfOk, OnOk, map};
ghost use Rattle.binder_names.specs.Binders as spec;
ghost use Rattle.binder_tables.specs.View.{view_all_known, view_known};
ghost use Rattle.c_syntax.specs.View.{view_logic, view_logic_body};
ghost use Rattle.typed_unit.specs.View.{view_annotated, view_part};

use crate::binders::{Known, put_binders};
use c_syntax::{LogicBody, LogicDecl};
use std::alloc::Global;
use typed_unit::{Annotated, Part};
use wp_base::{List, NoMemory, Str};

fn body_binders(alloc: Global, known: &[Known], body: &LogicBody) -> Result<List<Str>, NoMemory>
    ensures { IfOk result (λ binders. binders ≡ spec.body_binders (view_all_known known.now) (view_logic_body body.now)) }
{
    match body {
        LogicBody::Term(_) => Ok(List::new(alloc)),
        LogicBody::Pred(pred) => {
            let mut binders = List::new(alloc);
            put_binders(pred, alloc, known, &mut binders)?;
            Ok(binders)
        }
    }
}

// What a definition binds, with its name.
fn known_as(alloc: Global, known: &[Known], decl: &LogicDecl) -> Result<Known, NoMemory>
    ensures { IfOk result (λ made. view_known made ≡ spec.known_as (view_all_known known.now) (view_logic decl.now)) }
{
    let binders = body_binders(alloc, known, &decl.body)?;
    let name = decl.name.copy(alloc)?;
    Ok(Known { name, binders })
}

fn put_first(known: &mut Vec<Known>, first: Known) -> Result<(), NoMemory>
    ensures { OnOk result (known.new.items ≡ first ∷ known.old.items) }
{
    known.insert(0, first)?;
    Ok(())
}

fn add_decl(alloc: Global, part: &Part<'_>, known: &mut Vec<Known>) -> Result<(), NoMemory>
    ensures { OnOk result (view_all_known known.new.items ≡ spec.with_decl (view_all_known known.old.items) (view_part part.now).decl) }
{
    match &part.decl {
        Annotated::Function(_, _, _, _) => Ok(()),
        Annotated::Logic(decl) => {
            let first = known_as(alloc, known.as_slice(), decl)?;
            put_first(known, first)
        }
    }
}

/// The definitions of a file, the last ones first.
#[tactic(auto, using(crate::proofs::Loops::known_laws))]
pub(crate) fn known_in(alloc: Global, parts: &[Part<'_>]) -> Result<Vec<Known>, NoMemory>
    ensures { IfOk result (λ known. view_all_known known.items ≡ spec.known_behind [] (map view_part parts.now)) }
{
    let mut known = Vec::new(alloc);
    for at in 0..parts.len() {
        add_decl(alloc, &parts[at], &mut known)?;
    }
    Ok(known)
}
