// Elements of arrays, and what stands behind where a pointer leads (C11 6.5.2.1).
ghost use Rattle.std.specs.Prelude.{◌≡◌, suc, [], ◌∷◌, length, map, IfOk};
ghost use Rattle.c_answers.specs.Answers.{Gives};
ghost use Rattle.c_operands.specs.Operands.{view_operand, view_place, view_rvalue};
ghost use Rattle.c_places.specs.Objects as spec;
ghost use Rattle.typed_prog.specs.View.{view_value, view_values};

use c_answers::refused;
use c_operands::{Operand, Place, Rvalue, valued};
use c_rules::{element_cells, stride};
use std::alloc::Global;
use typed_prog::{CoreType, Path, Root, Step, Value};
use wp_base::{Line, List, NoMemory, Rule, Stop};

/// The value of an index, which is an integer.
#[tactic(auto, using(c_answers::proofs::After::after_laws), unfolding(crate::specs::Objects::index_value))]
fn index_value(alloc: Global, line: Line, of: Operand) -> Result<Value, Stop>
    ensures { Gives view_value result (spec.index_value line (view_operand of)) }
{
    let of = valued(alloc, line, of)?;
    if of.value.ty.kind().is_none() {
        return Err(refused(Rule::Typing, line));
    }
    Ok(of.value)
}

// How many operands there are. More than 32 bits tell would want more memory than there is.
fn operand_number(operands: &List<Value>) -> Result<u32, NoMemory>
    ensures { IfOk result (λ n. n ≡ length (view_values operands.now)) }
{
    match u32::try_from(operands.len()) {
        Ok(number) => Ok(number),
        Err(_) => Err(NoMemory),
    }
}

fn element(
    alloc: Global,
    sizes: &[u32],
    line: Line,
    count: u32,
    place: Place,
    index: Value,
) -> Result<Place, NoMemory>
    ensures { IfOk result (λ p. view_place p ≡ spec.element sizes.now line count (view_place place) (view_value index)) }
{
    let size = element_cells(sizes, &place.ty);
    let ty = place.ty.element(alloc)?;
    let operand = operand_number(&place.operands)?;
    let Place {
        path,
        mut operands,
        ty: _,
    } = place;
    let Path {
        root,
        mut steps,
        line: _,
    } = path;
    steps.push(Step::Element {
        operand,
        size,
        count,
        line,
    })?;
    operands.push(index)?;
    Ok(Place {
        path: Path { root, steps, line },
        operands,
        ty,
    })
}

fn next(number: u32) -> Result<u32, NoMemory>
    ensures { IfOk result (λ n. n ≡ suc number) }
{
    match number.checked_add(1) {
        Some(next) => Ok(next),
        None => Err(NoMemory),
    }
}

// The same step, where one operand more stands in front.
fn step_behind(step: Step) -> Result<Step, NoMemory>
    ensures { IfOk result (λ s. s ≡ spec.step_behind step) }
{
    match step {
        Step::Field { number, offset } => Ok(Step::Field { number, offset }),
        Step::Element {
            operand,
            size,
            count,
            line,
        } => {
            let operand = next(operand)?;
            Ok(Step::Element {
                operand,
                size,
                count,
                line,
            })
        }
        Step::Moved { operand, size } => {
            let operand = next(operand)?;
            Ok(Step::Moved { operand, size })
        }
    }
}

fn steps_behind(alloc: Global, steps: &[Step]) -> Result<List<Step>, NoMemory>
    ensures { IfOk result (λ ss. ss ≡ map spec.step_behind steps.now) }
{
    let mut behind = List::new(alloc);
    for step in steps {
        behind.push(step_behind(*step)?)?;
    }
    Ok(behind)
}

fn root_behind(root: Root) -> Result<Root, NoMemory>
    ensures { IfOk result (λ r. r ≡ spec.root_behind root) }
{
    match root {
        Root::Variable(variable) => Ok(Root::Variable(variable)),
        Root::Pointed(operand) => Ok(Root::Pointed(next(operand)?)),
    }
}

fn with_first(first: Value, rest: List<Value>) -> Result<List<Value>, NoMemory>
    ensures { IfOk result (λ vs. view_values vs ≡ view_value first ∷ view_values rest) }
{
    let mut operands = rest.into_vec();
    operands.insert(0, first)?;
    Ok(List::from_vec(operands))
}

fn element_swapped(
    alloc: Global,
    sizes: &[u32],
    line: Line,
    count: u32,
    place: Place,
    index: Value,
) -> Result<Place, NoMemory>
    ensures { IfOk result (λ p. view_place p ≡ spec.element_swapped sizes.now line count (view_place place) (view_value index)) }
{
    let size = element_cells(sizes, &place.ty);
    let ty = place.ty.element(alloc)?;
    let root = root_behind(place.path.root)?;
    let mut steps = steps_behind(alloc, place.path.steps.as_slice())?;
    steps.push(Step::Element {
        operand: 0,
        size,
        count,
        line,
    })?;
    let operands = with_first(index, place.operands)?;
    Ok(Place {
        path: Path { root, steps, line },
        operands,
        ty,
    })
}

// What stands so many elements behind where a pointer of this type leads.
fn pointed(
    alloc: Global,
    sizes: &[u32],
    line: Line,
    pointer: u32,
    index: u32,
    operands: List<Value>,
    ty: &CoreType,
) -> Result<Operand, Stop>
    ensures { Gives view_operand result (spec.pointed sizes.now line pointer index (view_values operands) ty.now) }
{
    let Some(size) = stride(sizes, ty) else {
        return Err(refused(Rule::Typing, line));
    };
    let Some((ty, is_const)) = ty.target(alloc)? else {
        return Err(refused(Rule::Typing, line));
    };
    let mut steps = List::new(alloc);
    steps.push(Step::Moved {
        operand: index,
        size,
    })?;
    let path = Path {
        root: Root::Pointed(pointer),
        steps,
        line,
    };
    Ok(Operand::Object(Place { path, operands, ty }, is_const))
}

fn two_operands(alloc: Global, first: Value, second: Value) -> Result<List<Value>, NoMemory>
    ensures { IfOk result (λ vs. view_values vs ≡ view_value first ∷ view_value second ∷ []) }
{
    let mut operands = List::new(alloc);
    operands.push(first)?;
    operands.push(second)?;
    Ok(operands)
}

fn indexed_values(
    alloc: Global,
    sizes: &[u32],
    line: Line,
    left: Rvalue,
    right: Rvalue,
) -> Result<Operand, Stop>
    ensures { Gives view_operand result (spec.indexed_values sizes.now line (view_rvalue left) (view_rvalue right)) }
{
    match (left.value.ty.kind(), right.value.ty.kind()) {
        (None, Some(_)) => {
            let ty = left.value.ty.copy(alloc)?;
            let operands = two_operands(alloc, left.value, right.value)?;
            pointed(alloc, sizes, line, 0, 1, operands, &ty)
        }
        (Some(_), None) => {
            let ty = right.value.ty.copy(alloc)?;
            let operands = two_operands(alloc, left.value, right.value)?;
            pointed(alloc, sizes, line, 1, 0, operands, &ty)
        }
        (None, None) | (Some(_), Some(_)) => Err(refused(Rule::Typing, line)),
    }
}

fn array_count(of: &Operand) -> Option<u32>
    ensures { result ≡ spec.array_count (view_operand of.now) }
{
    match of {
        Operand::Object(place, _) => place.ty.count,
        Operand::Value(_, _) => None,
    }
}

fn element_of(
    alloc: Global,
    sizes: &[u32],
    line: Line,
    count: u32,
    array: Operand,
    index: Value,
) -> Result<Operand, NoMemory>
    ensures { IfOk result (λ x. view_operand x ≡ spec.of_object (view_operand array) (λ p. spec.element sizes.now line count p (view_value index))) }
{
    match array {
        Operand::Object(place, is_const) => Ok(Operand::Object(
            element(alloc, sizes, line, count, place, index)?,
            is_const,
        )),
        Operand::Value(value, is_constant) => Ok(Operand::Value(value, is_constant)),
    }
}

fn element_before(
    alloc: Global,
    sizes: &[u32],
    line: Line,
    count: u32,
    array: Operand,
    index: Value,
) -> Result<Operand, NoMemory>
    ensures { IfOk result (λ x. view_operand x ≡ spec.of_object (view_operand array) (λ p. spec.element_swapped sizes.now line count p (view_value index))) }
{
    match array {
        Operand::Object(place, is_const) => Ok(Operand::Object(
            element_swapped(alloc, sizes, line, count, place, index)?,
            is_const,
        )),
        Operand::Value(value, is_constant) => Ok(Operand::Value(value, is_constant)),
    }
}

/// `[ ]` (C11 6.5.2.1). `sizes` has the cells of each struct of the file.
#[tactic(auto, using(c_answers::proofs::After::after_laws), unfolding(crate::specs::Objects::indexed))]
pub fn indexed(
    alloc: Global,
    sizes: &[u32],
    line: Line,
    left: Operand,
    right: Operand,
) -> Result<Operand, Stop>
    ensures { Gives view_operand result (spec.indexed sizes.now line (view_operand left) (view_operand right)) }
{
    if let Some(count) = array_count(&left) {
        let index = index_value(alloc, line, right)?;
        return Ok(element_of(alloc, sizes, line, count, left, index)?);
    }
    if let Some(count) = array_count(&right) {
        let index = index_value(alloc, line, left)?;
        return Ok(element_before(alloc, sizes, line, count, right, index)?);
    }
    let left = valued(alloc, line, left)?;
    let right = valued(alloc, line, right)?;
    indexed_values(alloc, sizes, line, left, right)
}
