// What stands around a part of a full expression.
ghost use Rattle.std.specs.Prelude.{◌≡◌};
ghost use Rattle.c_sequence.specs.Around as spec;
ghost use Rattle.c_sequence.specs.Sequence.{plain_of};

use crate::found::Embedded;
use crate::summaries::{Summary, is_pending, may_read, quiet};
use typed_prog::{Effect, Op};

/// What is known of a whole by what is known of one part of it.
#[derive(Clone, Copy)]
pub(crate) struct Around {
    /// What the whole is around a part without effects and reads.
    pub own: Summary,
    /// What is unsequenced with the part reads only what may be read.
    pub beside_effect: bool,
    /// What is unsequenced with the part holds no effect.
    pub beside_read: bool,
    /// What is read by the value of the part may be read.
    pub behind_pending: bool,
    /// An effect that is pending when the value of the part is used still is when that of the whole is.
    pub stays_pending: bool,
}

/// The whole that this is with the part.
pub(crate) fn whole(around: Around, part: Summary) -> Summary
    ensures { result ≡ spec.whole around part }
{
    let own = around.own;
    let effect = !part.holds || around.beside_effect;
    let read = part.reads || around.beside_read;
    let pending = !part.pending || around.behind_pending;
    Summary {
        holds: part.holds || own.holds,
        reads: part.reads && own.reads,
        fine: part.fine && own.fine && (effect && (read && pending)),
        pending: part.pending && around.stays_pending || own.pending,
    }
}

/// What stands around what stands around the part.
pub(crate) fn outside(outer: Around, inner: Around) -> Around
    ensures { result ≡ spec.outside outer inner }
{
    let pending = !inner.stays_pending || outer.behind_pending;
    Around {
        own: whole(outer, inner.own),
        beside_effect: inner.beside_effect && outer.beside_effect,
        beside_read: inner.beside_read && outer.beside_read,
        behind_pending: inner.behind_pending && pending,
        stays_pending: inner.stays_pending && outer.stays_pending,
    }
}

/// The part is the whole.
pub(crate) fn nothing_around() -> Around
    ensures { result ≡ spec.nothing_around }
{
    Around {
        own: quiet(),
        beside_effect: true,
        beside_read: true,
        behind_pending: true,
        stays_pending: true,
    }
}

/// A part whose order with this one is open.
pub(crate) fn beside_this(other: Summary) -> Around
    ensures { result ≡ spec.beside_this other }
{
    Around {
        own: other,
        beside_effect: other.reads,
        beside_read: !other.holds,
        behind_pending: true,
        stays_pending: true,
    }
}

/// A part that is done before this one or behind it.
pub(crate) fn in_order_with(other: Summary) -> Around
    ensures { result ≡ spec.in_order_with other }
{
    Around {
        own: other,
        beside_effect: true,
        beside_read: true,
        behind_pending: true,
        stays_pending: true,
    }
}

fn read_of(may: bool) -> Around
    ensures { result ≡ spec.read_of may }
{
    let own = Summary {
        holds: false,
        reads: may,
        fine: true,
        pending: false,
    };
    Around {
        own,
        beside_effect: true,
        beside_read: true,
        behind_pending: may,
        stays_pending: true,
    }
}

/// An operator that evaluates all its operands.
pub(crate) fn operator_of(globals: &[bool], locals: &[bool], embedded: Embedded, op: &Op) -> Around
    ensures { result ≡ spec.operator_of (plain_of globals.now locals.now) embedded op.now }
{
    match op {
        Op::Read(path) => read_of(may_read(globals, locals, embedded, path.root)),
        Op::Address(_, _) => nothing_around(),
        Op::Decay(_, _) => nothing_around(),
        Op::Negate => nothing_around(),
        Op::Complement => nothing_around(),
        Op::Not => nothing_around(),
        Op::Arithmetic(_) => nothing_around(),
        Op::Compare(_) => nothing_around(),
        Op::ComparePointers(_) => nothing_around(),
        Op::Offset {
            minus: _,
            index_first: _,
            size: _,
            accessed: _,
        } => nothing_around(),
        Op::Difference { size: _ } => nothing_around(),
        Op::Convert => nothing_around(),
        Op::Requalify => nothing_around(),
        Op::Cast => nothing_around(),
    }
}

/// What changes the state.
pub(crate) fn effect_of(effect: &Effect) -> Around
    ensures { result ≡ spec.effect_of effect.now }
{
    let own = Summary {
        holds: true,
        reads: true,
        fine: true,
        pending: is_pending(effect),
    };
    Around {
        own,
        beside_effect: true,
        beside_read: true,
        behind_pending: true,
        stays_pending: false,
    }
}
