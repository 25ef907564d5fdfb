// What annotations come to: terms, formulas, pointers and sets of addresses; and what such a value is taken for (ACSL 2.2.2).
ghost use Rattle.std.specs.Prelude.{◌≡◌, IfOk};
ghost use Rattle.std.specs.Option.{option_map};
ghost use Rattle.acsl_encode.specs.Encode as spec;
ghost use Rattle.annotation_heads.specs.Pairs.{set_in, shape_in, view_set};
ghost use Rattle.annotation_heads.specs.View.{view_pointer, view_terms};
ghost use Rattle.annotation_heads.specs.declared.terms.Terms.TheVariants as terms;
ghost use Rattle.qed_terms.specs.View.{formula_tree, term_tree};

use crate::operands::{not_zero, truth_term};
use qed_terms::{Formula, Term};
use std::alloc::Global;
use typed_prog::Variable;
use wp_base::{CellKind, Kind, List, NoMemory};

/// A pointer.
#[derive(Drop)]
pub struct Pointer {
    pub block: Term,
    pub offset: Term,
}

/// What a node of an annotation comes to.
pub enum Terms {
    /// An integer of a kind of C, or of type `integer`.
    Integer(Option<Kind>, Term),
    Truth(Formula),
    /// A pointer, or the address of an object.
    Address(Pointer),
    /// The address of a variable that no pointer leads to.
    Variable(Variable),
    /// Addresses behind a pointer, over elements of so many cells, from one number to another one.
    Elements(Pointer, u32, Term, Term),
    /// Elements with these cells: the cells of a block from an offset up to below another one.
    Region(List<CellKind>, Term, Term, Term),
    /// It isn't in order.
    Nothing,
}

// Written out, so that whoever may drop one needn't know its variants.
impl Drop for Terms {
    fn drop(self) {
        match self {
            Terms::Integer(_, term) => drop(term),
            Terms::Truth(formula) => drop(formula),
            Terms::Address(pointer) => drop(pointer),
            Terms::Variable(_) | Terms::Nothing => {}
            Terms::Elements(pointer, _, low, high) => {
                drop(pointer);
                drop(low);
                drop(high);
            }
            Terms::Region(cells, block, low, high) => {
                drop(cells);
                drop(block);
                drop(low);
                drop(high);
            }
        }
    }
}

/// A copy of kinds of cells, which equals its source.
pub fn copy_cells(alloc: Global, cells: &[CellKind]) -> Result<List<CellKind>, NoMemory>
    ensures { IfOk result (λ copy. copy ≡ cells.now) }
{
    Ok(List::from_vec(Vec::from_slice(alloc, cells)?))
}

// Copies of two terms.
fn copy_two(alloc: Global, first: &Term, second: &Term) -> Result<(Term, Term), NoMemory>
    ensures { IfOk result (λ copies. (copies.0 ≡ first.now) × (copies.1 ≡ second.now)) }
{
    let first = first.copy(alloc)?;
    Ok((first, second.copy(alloc)?))
}

impl Pointer {
    /// A copy, which equals its source.
    pub fn copy(&self, alloc: Global) -> Result<Pointer, NoMemory>
        ensures { IfOk result (λ copy. copy ≡ self.now) }
    {
        let (block, offset) = copy_two(alloc, &self.block, &self.offset)?;
        Ok(Pointer { block, offset })
    }
}

fn copy_elements(
    alloc: Global,
    pointer: &Pointer,
    size: u32,
    low: &Term,
    high: &Term,
) -> Result<Terms, NoMemory>
    ensures { IfOk result (λ copy. copy ≡ terms.Elements pointer.now size low.now high.now) }
{
    let pointer = pointer.copy(alloc)?;
    let (low, high) = copy_two(alloc, low, high)?;
    Ok(Terms::Elements(pointer, size, low, high))
}

fn copy_region(
    alloc: Global,
    cells: &List<CellKind>,
    block: &Term,
    low: &Term,
    high: &Term,
) -> Result<Terms, NoMemory>
    ensures { IfOk result (λ copy. copy ≡ terms.Region cells.now block.now low.now high.now) }
{
    let cells = copy_cells(alloc, cells.as_slice())?;
    let block = block.copy(alloc)?;
    let (low, high) = copy_two(alloc, low, high)?;
    Ok(Terms::Region(cells, block, low, high))
}

impl Terms {
    /// A copy, which equals its source.
    pub fn copy(&self, alloc: Global) -> Result<Terms, NoMemory>
        ensures { IfOk result (λ copy. copy ≡ self.now) }
    {
        match self {
            Terms::Integer(kind, term) => Ok(Terms::Integer(*kind, term.copy(alloc)?)),
            Terms::Truth(formula) => Ok(Terms::Truth(formula.copy(alloc)?)),
            Terms::Address(pointer) => Ok(Terms::Address(pointer.copy(alloc)?)),
            Terms::Variable(variable) => Ok(Terms::Variable(*variable)),
            Terms::Elements(pointer, size, low, high) => {
                copy_elements(alloc, pointer, *size, low, high)
            }
            Terms::Region(cells, block, low, high) => copy_region(alloc, cells, block, low, high),
            Terms::Nothing => Ok(Terms::Nothing),
        }
    }
}

// ---- what values are taken for

/// The address of an object, or the addresses behind a pointer from one number to another one.
#[derive(Drop)]
pub enum Set {
    Object(Pointer),
    Elements(Pointer, u32, Term, Term),
    Nothing,
}

/// Which kind of value it is.
#[derive(Clone, Copy)]
pub enum Shape {
    Integer(Option<Kind>),
    Truth,
    Address,
    Variable(Variable),
    Other,
}

impl Terms {
    /// The integer; a truth is 1 or 0.
    pub fn into_integer(self, alloc: Global) -> Result<Option<Term>, NoMemory>
        ensures { IfOk result (λ found. option_map term_tree found ≡ spec.as_integer (view_terms self)) }
    {
        match self {
            Terms::Integer(_, term) => Ok(Some(term)),
            Terms::Truth(formula) => Ok(Some(truth_term(alloc, formula)?)),
            Terms::Address(pointer) => {
                drop(pointer);
                Ok(None)
            }
            Terms::Variable(_) => Ok(None),
            Terms::Elements(pointer, _, low, high) => {
                drop(pointer);
                drop(low);
                drop(high);
                Ok(None)
            }
            Terms::Region(cells, block, low, high) => {
                drop(cells);
                drop(block);
                drop(low);
                drop(high);
                Ok(None)
            }
            Terms::Nothing => Ok(None),
        }
    }

    /// The truth; an integer that isn't 0 is true.
    pub fn into_formula(self, alloc: Global) -> Result<Option<Formula>, NoMemory>
        ensures { IfOk result (λ found. option_map formula_tree found ≡ spec.as_formula (view_terms self)) }
    {
        match self {
            Terms::Integer(_, term) => Ok(Some(not_zero(alloc, term)?)),
            Terms::Truth(formula) => Ok(Some(formula)),
            Terms::Address(pointer) => {
                drop(pointer);
                Ok(None)
            }
            Terms::Variable(_) => Ok(None),
            Terms::Elements(pointer, _, low, high) => {
                drop(pointer);
                drop(low);
                drop(high);
                Ok(None)
            }
            Terms::Region(cells, block, low, high) => {
                drop(cells);
                drop(block);
                drop(low);
                drop(high);
                Ok(None)
            }
            Terms::Nothing => Ok(None),
        }
    }

    /// The set of addresses.
    pub fn into_set(self) -> Set
        ensures { view_set result ≡ set_in (view_terms self) }
    {
        match self {
            Terms::Integer(_, term) => {
                drop(term);
                Set::Nothing
            }
            Terms::Truth(formula) => {
                drop(formula);
                Set::Nothing
            }
            Terms::Address(pointer) => Set::Object(pointer),
            Terms::Variable(_) => Set::Nothing,
            Terms::Elements(pointer, size, low, high) => Set::Elements(pointer, size, low, high),
            Terms::Region(cells, block, low, high) => {
                drop(cells);
                drop(block);
                drop(low);
                drop(high);
                Set::Nothing
            }
            Terms::Nothing => Set::Nothing,
        }
    }

    /// The pointer.
    #[tactic(auto, using(crate::proofs::Paired::pointer_laws))]
    pub fn into_pointer(self) -> Option<Pointer>
        ensures { option_map view_pointer result ≡ spec.as_pointer (view_terms self) }
    {
        match self.into_set() {
            Set::Object(pointer) => Some(pointer),
            Set::Elements(_, _, _, _) => None,
            Set::Nothing => None,
        }
    }
}

/// Which kind of value it is.
pub fn shape_of(terms: &Terms) -> Shape
    ensures { result ≡ shape_in (view_terms terms.now) }
{
    match terms {
        Terms::Integer(kind, _) => Shape::Integer(*kind),
        Terms::Truth(_) => Shape::Truth,
        Terms::Address(_) => Shape::Address,
        Terms::Variable(variable) => Shape::Variable(*variable),
        Terms::Elements(_, _, _, _) => Shape::Other,
        Terms::Region(_, _, _, _) => Shape::Other,
        Terms::Nothing => Shape::Other,
    }
}
