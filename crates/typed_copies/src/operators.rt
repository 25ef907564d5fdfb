// Copies of what nodes do with their operands, each of which equals its source.
ghost use Rattle.std.specs.Prelude.{◌≡◌, IfOk};

use std::alloc::Global;
use typed_prog::{Effect, Op, Path};
use wp_base::{List, NoMemory};

/// A copy of the way to an object.
pub fn copy_path(alloc: Global, path: &Path) -> Result<Path, NoMemory>
    ensures { IfOk result (λ copy. copy ≡ path.now) }
{
    let steps = Vec::from_slice(alloc, path.steps.as_slice())?;
    Ok(Path {
        root: path.root,
        steps: List::from_vec(steps),
        line: path.line,
    })
}

/// A copy of an operator.
pub fn copy_op(alloc: Global, op: &Op) -> Result<Op, NoMemory>
    ensures { IfOk result (λ copy. copy ≡ op.now) }
{
    match op {
        Op::Read(path) => Ok(Op::Read(copy_path(alloc, path)?)),
        Op::Address(path, accessed) => Ok(Op::Address(copy_path(alloc, path)?, *accessed)),
        Op::Decay(path, accessed) => Ok(Op::Decay(copy_path(alloc, path)?, *accessed)),
        Op::Negate => Ok(Op::Negate),
        Op::Complement => Ok(Op::Complement),
        Op::Not => Ok(Op::Not),
        Op::Arithmetic(op) => Ok(Op::Arithmetic(*op)),
        Op::Compare(how) => Ok(Op::Compare(*how)),
        Op::ComparePointers(how) => Ok(Op::ComparePointers(*how)),
        Op::Offset {
            minus,
            index_first,
            size,
            accessed,
        } => Ok(Op::Offset {
            minus: *minus,
            index_first: *index_first,
            size: *size,
            accessed: *accessed,
        }),
        Op::Difference { size } => Ok(Op::Difference { size: *size }),
        Op::Convert => Ok(Op::Convert),
        Op::Requalify => Ok(Op::Requalify),
        Op::Cast => Ok(Op::Cast),
    }
}

/// A copy of an effect.
pub fn copy_effect(alloc: Global, effect: &Effect) -> Result<Effect, NoMemory>
    ensures { IfOk result (λ copy. copy ≡ effect.now) }
{
    match effect {
        Effect::Assign(path) => Ok(Effect::Assign(copy_path(alloc, path)?)),
        Effect::Update { path, by, form } => Ok(Effect::Update {
            path: copy_path(alloc, path)?,
            by: *by,
            form: *form,
        }),
        Effect::Call(function) => Ok(Effect::Call(*function)),
    }
}
