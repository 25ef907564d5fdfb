// The names of the binders of predicates, in the order of the text (ACSL 2.2, 2.6).
ghost use Rattle.std.specs.Prelude.{◌≡◌, ◌++◌, ◌∷◌, [], OnOk, map, codes};
ghost use Rattle.std.specs.Str.{bytes_eq};
ghost use Rattle.binder_names.specs.Binders as spec;
ghost use Rattle.binder_tables.specs.View.{binders_found, view_all_known, view_known};
ghost use Rattle.c_syntax.specs.View.{view_pred, view_term, view_var};

use c_syntax::{BinOp, Pred, PredLeaf, PredOne, PredShape, Term, TermShape, TermTwo, VarDecl};
use std::alloc::Global;
use wp_base::{List, NoMemory, Str};

/// The name of a definition, and the binders of what it stands for.
#[derive(Drop)]
pub(crate) struct Known {
    pub name: Str,
    pub binders: List<Str>,
}

// ---- names

fn put_name(alloc: Global, name: &Str, out: &mut List<Str>) -> Result<(), NoMemory>
    ensures { OnOk result (out.new ≡ out.old ++ name.now ∷ []) }
{
    out.push(name.copy(alloc)?)?;
    Ok(())
}

fn put_names(alloc: Global, names: &[Str], out: &mut List<Str>) -> Result<(), NoMemory>
    ensures { OnOk result (out.new ≡ out.old ++ names.now) }
{
    for at in 0..names.len() {
        put_name(alloc, &names[at], out)?;
    }
    Ok(())
}

fn put_binder(alloc: Global, binder: &VarDecl, out: &mut List<Str>) -> Result<(), NoMemory>
    ensures { OnOk result (out.new ≡ out.old ++ spec.name_of (view_var binder.now) ∷ []) }
{
    put_name(alloc, &binder.name, out)
}

fn put_declared(alloc: Global, binders: &[VarDecl], out: &mut List<Str>) -> Result<(), NoMemory>
    ensures { OnOk result (out.new ≡ out.old ++ map spec.name_of (map view_var binders.now)) }
{
    for at in 0..binders.len() {
        put_binder(alloc, &binders[at], out)?;
    }
    Ok(())
}

// ---- definitions

fn is_named(known: &Known, name: &Str) -> bool
    ensures { result ≡ bytes_eq (view_known known.now).name name.now }
{
    known.name.bytes() == name.bytes()
}

fn find<'k>(known: &'k [Known], name: &Str) -> Option<&'k Known>
    ensures { binders_found result ≡ spec.found (view_all_known known.now) name.now }
{
    for at in 0..known.len() {
        let found = is_named(&known[at], name);
        if found {
            return Some(&known[at]);
        }
    }
    None
}

// Those of what is called.
#[tactic(auto, using(crate::proofs::Gathering::nothing_put))]
fn put_found(
    alloc: Global,
    known: &[Known],
    name: &Str,
    out: &mut List<Str>,
) -> Result<(), NoMemory>
    ensures { OnOk result (out.new ≡ out.old ++ spec.found (view_all_known known.now) name.now) }
{
    match find(known, name) {
        Some(found) => put_names(alloc, found.binders.as_slice(), out),
        None => Ok(()),
    }
}

// ---- ranges

#[tactic(auto, using(c_syntax::proofs::Equations::term_laws))]
fn is_range(term: &Term) -> bool
    ensures { result ≡ spec.is_range (view_term term.now) }
{
    match term.node.look() {
        TermShape::Two(TermTwo::Range, _, _) => true,
        TermShape::Two(TermTwo::Binary(_), _, _) => false,
        TermShape::Two(TermTwo::Index, _, _) => false,
        TermShape::Leaf(_) => false,
        TermShape::One(_, _) => false,
        TermShape::Cond(_, _, _) => false,
        TermShape::Call(_, _) => false,
    }
}

#[tactic(auto, using(c_syntax::proofs::Equations::term_laws))]
fn is_span(term: &Term) -> bool
    ensures { result ≡ spec.is_span (view_term term.now) }
{
    match term.node.look() {
        TermShape::Two(TermTwo::Binary(_), _, at) => is_range(at.get()),
        TermShape::Two(TermTwo::Range, _, _) => false,
        TermShape::Two(TermTwo::Index, _, _) => false,
        TermShape::Leaf(_) => false,
        TermShape::One(_, _) => false,
        TermShape::Cond(_, _, _) => false,
        TermShape::Call(_, _) => false,
    }
}

fn put_range(alloc: Global, out: &mut List<Str>) -> Result<(), NoMemory>
    ensures { OnOk result (out.new ≡ out.old ++ codes "r" ∷ []) }
{
    out.push(Str::from_bytes(alloc, b"r")?)?;
    Ok(())
}

// That of a range, if there is one.
#[tactic(auto, using(crate::proofs::Gathering::nothing_put))]
fn put_span(alloc: Global, term: &Term, out: &mut List<Str>) -> Result<(), NoMemory>
    ensures { OnOk result (out.new ≡ out.old ++ spec.span_binder (view_term term.now)) }
{
    if is_span(term) {
        put_range(alloc, out)
    } else {
        Ok(())
    }
}

// ---- predicates

/// Puts the names of the binders of a predicate behind these.
#[cycle(binders)]
#[tactic(auto, using(c_syntax::proofs::Equations::pred_laws, crate::proofs::Gathering::gather_laws))]
pub(crate) fn put_binders(
    pred: &Pred,
    alloc: Global,
    known: &[Known],
    out: &mut List<Str>,
) -> Result<(), NoMemory>
    ensures { OnOk result (out.new ≡ out.old ++ spec.binders_of (view_all_known known.now) (view_pred pred.now)) }
{
    match pred.node.look() {
        PredShape::Leaf(PredLeaf::True) => Ok(()),
        PredShape::Leaf(PredLeaf::False) => Ok(()),
        PredShape::Leaf(PredLeaf::Chain(_, _)) => Ok(()),
        PredShape::Leaf(PredLeaf::Separated(_)) => Ok(()),
        PredShape::Leaf(PredLeaf::Valid(pointer)) => put_span(alloc, pointer.get(), out),
        PredShape::Leaf(PredLeaf::ValidRead(pointer)) => put_span(alloc, pointer.get(), out),
        PredShape::Leaf(PredLeaf::Call(name, _)) => put_found(alloc, known, name, out),
        PredShape::One(PredOne::Not, inside) => put_binders(inside.get(), alloc, known, out),
        PredShape::One(PredOne::Old, inside) => put_binders(inside.get(), alloc, known, out),
        PredShape::One(PredOne::Let(_, _), inside) => {
            put_binders(inside.get(), alloc, known, out)
        }
        PredShape::One(PredOne::Forall(binders), inside) => {
            put_declared(alloc, binders.as_slice(), out)?;
            put_binders(inside.get(), alloc, known, out)
        }
        PredShape::One(PredOne::Exists(binders), inside) => {
            put_declared(alloc, binders.as_slice(), out)?;
            put_binders(inside.get(), alloc, known, out)
        }
        PredShape::Two(_, first, second) => {
            put_binders(first.get(), alloc, known, out)?;
            put_binders(second.get(), alloc, known, out)
        }
        PredShape::Cond(test, first, second) => {
            put_binders(test.get(), alloc, known, out)?;
            put_binders(first.get(), alloc, known, out)?;
            put_binders(second.get(), alloc, known, out)
        }
    }
}
