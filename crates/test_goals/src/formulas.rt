// Formulas in their order.

use crate::terms::{Filling, layout, one_int};
use qed_terms::{FormOp, Formula, Shape, Term};
use std::alloc::Global;
use wp_base::{CellKind, Kind, List, NoMemory, Str, box_three};

fn relation(alloc: Global, op: FormOp) -> Result<Formula, NoMemory> {
    match one_int(alloc) {
        Ok(kids) => Ok(Formula::Rel(op, kids)),
        Err(NoMemory) => Err(NoMemory),
    }
}

fn frame(alloc: Global, shape: Shape) -> Result<Formula, NoMemory> {
    let mut shapes = List::new(alloc);
    shapes.push(shape)?;
    relation(alloc, FormOp::Frame(shapes))
}

fn for_all(alloc: Global) -> Result<Formula, NoMemory> {
    let name = Str::from_bytes(alloc, b"i!1")?;
    let (low, high, body) = box_three(alloc, Term::number(0), Term::number(9), Formula::False)?;
    Ok(Formula::Forall(name, low, high, body))
}

fn put_connectives(alloc: Global, formulas: &mut Filling<Formula>) {
    formulas.put(Ok(Formula::True));
    formulas.put(Ok(Formula::False));
    formulas.put(Formula::negation(alloc, Formula::True));
    formulas.put(Ok(Formula::and(List::new(alloc))));
    formulas.put(Formula::both(alloc, Formula::True, Formula::False));
    formulas.put(Ok(Formula::or(List::new(alloc))));
    formulas.put(Formula::implication(alloc, Formula::True, Formula::False));
    formulas.put(Formula::implication(alloc, Formula::False, Formula::True));
    formulas.put(for_all(alloc));
}

fn put_memory(alloc: Global, formulas: &mut Filling<Formula>) {
    formulas.put(relation(alloc, FormOp::Read(CellKind::Of(Kind::Int))));
    formulas.put(relation(alloc, FormOp::Read(CellKind::Ptr)));
    formulas.put(relation(alloc, FormOp::Write(CellKind::Of(Kind::Bool))));
    formulas.put(relation(alloc, FormOp::Live));
    formulas.put(relation(alloc, FormOp::Has(layout(alloc, false, 1))));
    formulas.put(relation(alloc, FormOp::WellFormed(CellKind::Ptr)));
    formulas.put(frame(alloc, Shape::Cells));
    formulas.put(frame(alloc, Shape::New));
}

/// Formulas with each head, in their order; some heads with two kinds or shapes.
pub fn formulas_in_order(alloc: Global) -> Result<List<Formula>, NoMemory> {
    let mut formulas = Filling::new(alloc);
    formulas.put(relation(alloc, FormOp::Equal));
    formulas.put(relation(alloc, FormOp::AtMost));
    formulas.put(relation(alloc, FormOp::Less));
    formulas.put(relation(alloc, FormOp::Same));
    put_connectives(alloc, &mut formulas);
    put_memory(alloc, &mut formulas);
    formulas.into_items()
}
