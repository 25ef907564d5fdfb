// Assignments and increments (C11 6.5.2.4, 6.5.3.1, 6.5.16).
ghost use Rattle.std.specs.Prelude.{◌≡◌, IfOk};
ghost use Rattle.c_answers.specs.Answers.{Gives};
ghost use Rattle.c_operands.specs.Operands.{view_operand, view_place, view_rvalue};
ghost use Rattle.c_places.specs.Changes as spec;
ghost use Rattle.typed_prog.specs.View.{view_value, view_values};

use c_answers::refused;
use c_kinds::{Machdep, common, promote};
use c_operands::{Operand, Place, Rvalue, assignable, converted, number, valued};
use c_rules::{is_scalar, stride};
use c_syntax::BinOp;
use std::alloc::Global;
use typed_prog::{Arithmetic, Change, CoreType, Effect, UpdateForm, Value, ValueNode};
use wp_base::{Kind, Line, List, NoMemory, Rule, Stop};

#[tactic(auto, using(typed_prog::proofs::Equations::view_laws))]
fn changed(
    effect: Effect,
    operands: List<Value>,
    ty: CoreType,
    value: Value,
    line: Line,
) -> Result<Operand, NoMemory>
    ensures { IfOk result (λ x. view_operand x ≡ spec.changed_by effect (view_values operands) ty (view_value value) line) }
{
    let mut operands = operands.into_vec();
    operands.insert(0, value)?;
    let value = Value {
        node: ValueNode::Effect(effect, List::from_vec(operands)),
        ty,
        line,
    };
    Ok(Operand::Value(value, false))
}

/// An object that may be changed: one that isn't constant, and neither an array nor a struct (C11 6.3.2.1p1).
#[tactic(auto, unfolding(crate::specs::Changes::modifiable))]
fn modifiable(line: Line, of: Operand) -> Result<Place, Stop>
    ensures { Gives view_place result (spec.modifiable line (view_operand of)) }
{
    match of {
        Operand::Value(_, _) => Err(refused(Rule::Typing, line)),
        Operand::Object(place, is_const) => {
            if is_const || !is_scalar(&place.ty) {
                Err(refused(Rule::Typing, line))
            } else {
                Ok(place)
            }
        }
    }
}

#[tactic(auto, using(c_answers::proofs::After::after_laws))]
fn assigned_value(
    alloc: Global,
    model: Machdep,
    line: Line,
    to: Place,
    value: Rvalue,
) -> Result<Operand, Stop>
    ensures { Gives view_operand result (spec.assigned_value model line (view_place to) (view_rvalue value)) }
{
    let value = assignable(alloc, model, line, &to.ty, value.value)?;
    Ok(changed(Effect::Assign(to.path), to.operands, to.ty, value, line)?)
}

/// `=` (C11 6.5.16.1).
#[tactic(auto, using(c_answers::proofs::After::after_laws), unfolding(crate::specs::Changes::assigned))]
pub fn assigned(
    alloc: Global,
    model: Machdep,
    line: Line,
    to: Operand,
    value: Operand,
) -> Result<Operand, Stop>
    ensures { Gives view_operand result (spec.assigned model line (view_operand to) (view_operand value)) }
{
    let to = modifiable(line, to)?;
    let value = valued(alloc, line, value)?;
    assigned_value(alloc, model, line, to, value)
}

fn arithmetic_of(op: BinOp) -> Option<Arithmetic>
    ensures { result ≡ spec.arithmetic_of op }
{
    match op {
        BinOp::Mul => Some(Arithmetic::Mul),
        BinOp::Div => Some(Arithmetic::Div),
        BinOp::Rem => Some(Arithmetic::Rem),
        BinOp::Add => Some(Arithmetic::Add),
        BinOp::Sub => Some(Arithmetic::Sub),
        BinOp::Shl => Some(Arithmetic::Shl),
        BinOp::Shr => Some(Arithmetic::Shr),
        BinOp::BitAnd => Some(Arithmetic::And),
        BinOp::BitXor => Some(Arithmetic::Xor),
        BinOp::BitOr => Some(Arithmetic::Or),
        BinOp::Less
        | BinOp::AtMost
        | BinOp::Greater
        | BinOp::AtLeast
        | BinOp::Equal
        | BinOp::NotEqual
        | BinOp::And
        | BinOp::Or => None,
    }
}

fn is_shift(op: Arithmetic) -> bool
    ensures { result ≡ spec.is_shift op }
{
    match op {
        Arithmetic::Shl | Arithmetic::Shr => true,
        Arithmetic::Mul
        | Arithmetic::Div
        | Arithmetic::Rem
        | Arithmetic::Add
        | Arithmetic::Sub
        | Arithmetic::And
        | Arithmetic::Xor
        | Arithmetic::Or => false,
    }
}

// Whether it takes off what it moves a pointer by; none where it moves none.
fn moves(op: Arithmetic) -> Option<bool>
    ensures { result ≡ spec.moves op }
{
    match op {
        Arithmetic::Add => Some(false),
        Arithmetic::Sub => Some(true),
        Arithmetic::Mul
        | Arithmetic::Div
        | Arithmetic::Rem
        | Arithmetic::Shl
        | Arithmetic::Shr
        | Arithmetic::And
        | Arithmetic::Xor
        | Arithmetic::Or => None,
    }
}

fn computed_in(model: Machdep, shift: bool, of: Kind, by: Kind) -> Kind
    ensures { result ≡ spec.computed_in model shift of by }
{
    if shift {
        promote(of)
    } else {
        common(model, of, by)
    }
}

fn operand_in(model: Machdep, shift: bool, of: Kind, by: Kind) -> Kind
    ensures { result ≡ spec.operand_in model shift of by }
{
    if shift {
        promote(by)
    } else {
        common(model, of, by)
    }
}

fn integer_update(
    alloc: Global,
    model: Machdep,
    line: Line,
    op: Arithmetic,
    form: UpdateForm,
    to: Place,
    value: Value,
    of: Kind,
    by: Kind,
) -> Result<Operand, NoMemory>
    ensures { IfOk result (λ x. view_operand x ≡ spec.integer_update model line op form (view_place to) (view_value value) of by) }
{
    let shift = is_shift(op);
    let value = converted(alloc, model, operand_in(model, shift, of, by), value)?;
    let by = Change::Integer(op, computed_in(model, shift, of, by));
    let effect = Effect::Update {
        path: to.path,
        by,
        form,
    };
    changed(effect, to.operands, to.ty, value, line)
}

fn pointer_update(
    sizes: &[u32],
    line: Line,
    op: Arithmetic,
    form: UpdateForm,
    to: Place,
    value: Value,
) -> Result<Operand, Stop>
    ensures { Gives view_operand result (spec.pointer_update sizes.now line op form (view_place to) (view_value value)) }
{
    let (Some(minus), Some(size)) = (moves(op), stride(sizes, &to.ty)) else {
        return Err(refused(Rule::Typing, line));
    };
    let effect = Effect::Update {
        path: to.path,
        by: Change::Pointer { minus, size },
        form,
    };
    Ok(changed(effect, to.operands, to.ty, value, line)?)
}

#[tactic(auto, unfolding(crate::specs::Changes::updated))]
fn updated(
    alloc: Global,
    model: Machdep,
    sizes: &[u32],
    line: Line,
    op: Arithmetic,
    form: UpdateForm,
    to: Place,
    value: Value,
) -> Result<Operand, Stop>
    ensures { Gives view_operand result (spec.updated model sizes.now line op form (view_place to) (view_value value)) }
{
    let Some(by) = value.ty.kind() else {
        return Err(refused(Rule::Typing, line));
    };
    match to.ty.kind() {
        Some(of) => Ok(integer_update(alloc, model, line, op, form, to, value, of, by)?),
        None => pointer_update(sizes, line, op, form, to, value),
    }
}

/// The compound assignments (C11 6.5.16.2). `sizes` has the cells of each struct of the file.
#[tactic(auto, using(c_answers::proofs::After::after_laws), unfolding(crate::specs::Changes::compound))]
pub fn compound(
    alloc: Global,
    model: Machdep,
    sizes: &[u32],
    line: Line,
    op: BinOp,
    to: Operand,
    value: Operand,
) -> Result<Operand, Stop>
    ensures { Gives view_operand result (spec.compound model sizes.now line op (view_operand to) (view_operand value)) }
{
    let to = modifiable(line, to)?;
    let value = valued(alloc, line, value)?;
    compound_by(alloc, model, sizes, line, arithmetic_of(op), to, value)
}

fn compound_by(
    alloc: Global,
    model: Machdep,
    sizes: &[u32],
    line: Line,
    op: Option<Arithmetic>,
    to: Place,
    value: Rvalue,
) -> Result<Operand, Stop>
    ensures { Gives view_operand result (spec.compound_by model sizes.now line op (view_place to) (view_rvalue value)) }
{
    match op {
        None => Err(refused(Rule::Typing, line)),
        Some(op) => updated(
            alloc,
            model,
            sizes,
            line,
            op,
            UpdateForm::Compound,
            to,
            value.value,
        ),
    }
}

fn step_operator(up: bool) -> Arithmetic
    ensures { result ≡ spec.step_operator up }
{
    if up { Arithmetic::Add } else { Arithmetic::Sub }
}

fn step_form(prefix: bool) -> UpdateForm
    ensures { result ≡ spec.step_form prefix }
{
    if prefix {
        UpdateForm::Prefix
    } else {
        UpdateForm::Postfix
    }
}

/// `++` and `--` (C11 6.5.2.4, 6.5.3.1), which add or take off the `int` 1.
#[tactic(auto, using(c_answers::proofs::After::after_laws), unfolding(crate::specs::Changes::stepped))]
pub fn stepped(
    alloc: Global,
    model: Machdep,
    sizes: &[u32],
    line: Line,
    up: bool,
    prefix: bool,
    of: Operand,
) -> Result<Operand, Stop>
    ensures { Gives view_operand result (spec.stepped model sizes.now line up prefix (view_operand of)) }
{
    let to = modifiable(line, of)?;
    let one = number(alloc, Kind::Int, 1, line);
    updated(
        alloc,
        model,
        sizes,
        line,
        step_operator(up),
        step_form(prefix),
        to,
        one,
    )
}
