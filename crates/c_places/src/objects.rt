// What names an object, and its address (C11 6.5.1, 6.5.2.3, 6.5.3.2).
ghost use Rattle.std.specs.Prelude.{◌≡◌, IfOk, MatchResult};
ghost use Rattle.c_answers.specs.Answers.{Gives};
ghost use Rattle.c_operands.specs.Operands.{view_operand, view_place, view_rvalue};
ghost use Rattle.c_places.specs.Objects as spec;
ghost use Rattle.typed_prog.specs.View.{view_value, view_values};

use c_answers::refused;
use c_operands::{Operand, Place, Rvalue, applied_to_all, followed, valued};
use std::alloc::Global;
use typed_prog::{CoreType, Op, Path, Root, Step, Value, Variable};
use wp_base::{Line, List, NoMemory, Rule, Stop};

/// A field of a struct: its number there, its first cell, its type, and whether it is constant.
#[derive(Drop)]
pub struct Field {
    pub number: u32,
    pub offset: u32,
    pub ty: CoreType,
    pub is_const: bool,
}

/// A variable by its name (C11 6.5.1p2).
pub fn variable(
    alloc: Global,
    line: Line,
    variable: Variable,
    ty: CoreType,
    is_const: bool,
) -> Operand
    ensures { view_operand result ≡ spec.variable line variable ty is_const }
{
    Operand::Object(
        Place {
            path: Path {
                root: Root::Variable(variable),
                steps: List::new(alloc),
                line,
            },
            operands: List::new(alloc),
            ty,
        },
        is_const,
    )
}

fn followed_object(alloc: Global, line: Line, value: Value, ty: CoreType) -> Result<Place, NoMemory>
    ensures { IfOk result (λ p. view_place p ≡ spec.followed_place line (view_value value) ty) }
{
    let mut operands = List::new(alloc);
    operands.push(followed(true, value))?;
    Ok(Place {
        path: Path {
            root: Root::Pointed(0),
            steps: List::new(alloc),
            line,
        },
        operands,
        ty,
    })
}

fn dereferenced_value(alloc: Global, line: Line, of: Rvalue) -> Result<Operand, Stop>
    ensures { Gives view_operand result (spec.dereferenced_value line (view_rvalue of)) }
{
    match of.value.ty.target(alloc)? {
        None => Err(refused(Rule::Typing, line)),
        Some((ty, is_const)) => {
            if ty.is_void() {
                return Err(refused(Rule::Typing, line));
            }
            Ok(Operand::Object(followed_object(alloc, line, of.value, ty)?, is_const))
        }
    }
}

/// `*` (C11 6.5.3.2p4).
#[tactic(auto, using(c_answers::proofs::After::after_laws), unfolding(crate::specs::Objects::dereferenced))]
pub fn dereferenced(alloc: Global, line: Line, of: Operand) -> Result<Operand, Stop>
    ensures { Gives view_operand result (spec.dereferenced line (view_operand of)) }
{
    let of = valued(alloc, line, of)?;
    dereferenced_value(alloc, line, of)
}

// Whether the way ends where the first operand points.
fn is_bare(path: &Path) -> bool
    ensures { result ≡ spec.is_bare path.now }
{
    match path.root {
        Root::Variable(_) => false,
        Root::Pointed(operand) => operand == 0 && path.steps.len() == 0,
    }
}

// The one operand, or the operands as they are where they are none or more.
#[tactic(auto, using(crate::proofs::Only::only_laws))]
fn only(operands: List<Value>) -> Result<Value, List<Value>>
    ensures { MatchResult result (λ v. spec.only_of (view_values operands) ≡ Some (view_value v)) (λ vs. (vs ≡ operands) × (spec.only_of (view_values operands) ≡ None)) }
{
    let mut operands = operands.into_vec();
    if operands.len() != 1 {
        return Err(List::from_vec(operands));
    }
    match operands.pop() {
        Some(operand) => Ok(operand),
        None => Err(List::from_vec(operands)),
    }
}

fn address_of(alloc: Global, line: Line, place: Place, is_const: bool) -> Result<Value, NoMemory>
    ensures { IfOk result (λ v. view_value v ≡ spec.address_by line (view_place place) is_const None) }
{
    let ty = place.ty.pointer(alloc, is_const)?;
    Ok(applied_to_all(Op::Address(place.path, false), place.operands, ty, line))
}

fn address_at(alloc: Global, line: Line, place: Place, is_const: bool) -> Result<Value, NoMemory>
    ensures { IfOk result (λ v. view_value v ≡ spec.address_at line (view_place place) is_const) }
{
    if !is_bare(&place.path) {
        return address_of(alloc, line, place, is_const);
    }
    let Place { path, operands, ty } = place;
    match only(operands) {
        Ok(pointer) => Ok(followed(false, pointer)),
        Err(operands) => address_of(alloc, line, Place { path, operands, ty }, is_const),
    }
}

/// `&` (C11 6.5.3.2p3). An array has no pointer to it.
#[tactic(auto, unfolding(crate::specs::Objects::address))]
pub fn address(alloc: Global, line: Line, of: Operand) -> Result<Operand, Stop>
    ensures { Gives view_operand result (spec.address line (view_operand of)) }
{
    match of {
        Operand::Value(_, _) => Err(refused(Rule::Typing, line)),
        Operand::Object(place, is_const) => {
            if place.ty.count.is_some() {
                return Err(refused(Rule::Typing, line));
            }
            Ok(Operand::Value(address_at(alloc, line, place, is_const)?, false))
        }
    }
}

/// The number of the struct that an operand of `.` is; none where it is none.
pub fn dotted_struct(of: &Operand) -> Option<u32>
    ensures { result ≡ spec.dotted_struct (view_operand of.now) }
{
    match of {
        Operand::Object(place, _) => place.ty.structure(),
        Operand::Value(_, _) => None,
    }
}

fn member_of(line: Line, field: Field, place: Place) -> Result<Place, NoMemory>
    ensures { IfOk result (λ p. view_place p ≡ spec.member_of line field (view_place place)) }
{
    let Place {
        path,
        operands,
        ty: _,
    } = place;
    let Path {
        root,
        mut steps,
        line: _,
    } = path;
    steps.push(Step::Field {
        number: field.number,
        offset: field.offset,
    })?;
    Ok(Place {
        path: Path { root, steps, line },
        operands,
        ty: field.ty,
    })
}

/// A field of an object (C11 6.5.2.3), which is constant where the object or the field is; none is one that the struct lacks.
pub fn member_by(line: Line, of: Operand, field: Option<Field>) -> Result<Operand, Stop>
    ensures { Gives view_operand result (spec.member_by line (view_operand of) field) }
{
    let Some(field) = field else {
        return Err(refused(Rule::Name, line));
    };
    match of {
        Operand::Value(_, _) => Err(refused(Rule::Typing, line)),
        Operand::Object(place, is_const) => {
            let is_const = is_const || field.is_const;
            Ok(Operand::Object(member_of(line, field, place)?, is_const))
        }
    }
}
