// What is unsequenced with the embedded effect, and what it reads.
ghost use Rattle.std.specs.Prelude.{◌≡◌, false, map, slice_index_or};
ghost use Rattle.c_sequence.specs.Around.{in_order_with};
ghost use Rattle.c_sequence.specs.Sequence as spec;
ghost use Rattle.c_sequence.specs.Sequence.{plain_of};
ghost use Rattle.typed_prog.specs.Tree as t;
ghost use Rattle.typed_prog.specs.View.{view_value, view_value_node};

use crate::found::Embedded;
use crate::frames::{
    Around, beside_this, effect_of, in_order_with, nothing_around, operator_of, outside, whole,
};
use typed_prog::{Effect, Path, Root, Value, ValueNode, Variable};

/// What is known of a part of a full expression.
#[derive(Clone, Copy)]
pub struct Summary {
    /// It holds the effect.
    pub holds: bool,
    /// It reads only what may be read beside the effect.
    pub reads: bool,
    /// What is unsequenced with the effect inside it reads only that.
    pub fine: bool,
    /// The effect may be pending when the value of this part is used.
    pub pending: bool,
}

/// Which variables are plain, by their numbers.
pub(crate) fn is_plain(globals: &[bool], locals: &[bool], variable: Variable) -> bool
    ensures { result ≡ spec.is_plain (plain_of globals.now locals.now) variable }
{
    let (of, number) = match variable {
        Variable::Global(number) => (globals, number),
        Variable::Local(number) => (locals, number),
    };
    marked(of, number)
}

fn marked(of: &[bool], number: u32) -> bool
    ensures { result ≡ slice_index_or of.now number false }
{
    match of.get(number as usize) {
        Some(plain) => *plain,
        None => false,
    }
}

pub(crate) fn is_same(first: Variable, second: Variable) -> bool
    ensures { result ≡ spec.same_variable first second }
{
    match first {
        Variable::Global(first) => match second {
            Variable::Global(second) => first == second,
            Variable::Local(_) => false,
        },
        Variable::Local(first) => match second {
            Variable::Local(second) => first == second,
            Variable::Global(_) => false,
        },
    }
}

fn leaves_alone(embedded: Embedded, variable: Variable) -> bool
    ensures { result ≡ spec.leaves_alone embedded variable }
{
    match embedded {
        Embedded::Call => true,
        Embedded::Change(changed) => match changed {
            None => true,
            Some(changed) => !is_same(changed, variable),
        },
    }
}

pub(crate) fn may_read(globals: &[bool], locals: &[bool], embedded: Embedded, root: Root) -> bool
    ensures { result ≡ spec.may_read_at (plain_of globals.now locals.now) embedded root }
{
    match root {
        Root::Pointed(_) => false,
        Root::Variable(variable) => match variable {
            Variable::Global(_) => false,
            Variable::Local(_) => {
                is_plain(globals, locals, variable) && leaves_alone(embedded, variable)
            }
        },
    }
}

// No effect and no read.
pub(crate) fn quiet() -> Summary
    ensures { result ≡ spec.quiet }
{
    Summary {
        holds: false,
        reads: true,
        fine: true,
        pending: false,
    }
}

pub(crate) fn beside(first: Summary, second: Summary) -> Summary
    ensures { result ≡ spec.beside first second }
{
    let reads = (!first.holds || second.reads) && (!second.holds || first.reads);
    Summary {
        holds: first.holds || second.holds,
        reads: first.reads && second.reads,
        fine: first.fine && second.fine && reads,
        pending: first.pending || second.pending,
    }
}

fn in_order(first: Summary, second: Summary) -> Summary
    ensures { result ≡ spec.in_order first second }
{
    Summary {
        holds: first.holds || second.holds,
        reads: first.reads && second.reads,
        fine: first.fine && second.fine,
        pending: first.pending || second.pending,
    }
}

fn ended(of: Summary) -> Summary
    ensures { result ≡ spec.ended of }
{
    Summary {
        holds: of.holds,
        reads: of.reads,
        fine: of.fine,
        pending: false,
    }
}

pub(crate) fn reading(may: bool, of: Summary) -> Summary
    ensures { result ≡ spec.reading may of }
{
    Summary {
        holds: of.holds,
        reads: of.reads && may,
        fine: of.fine && (!of.pending || may),
        pending: of.pending,
    }
}

pub(crate) fn is_pending(effect: &Effect) -> bool
    ensures { result ≡ spec.is_pending effect.now }
{
    match effect {
        Effect::Assign(_) => true,
        Effect::Update {
            path: _,
            by: _,
            form: _,
        } => true,
        Effect::Call(_) => false,
    }
}

// What stands around the second arm of a choice.
fn choice_of(test: Summary, first: Summary) -> Around
    ensures { result ≡ in_order_with (spec.in_order (spec.ended test) first) }
{
    in_order_with(in_order(ended(test), first))
}

/// What is known of an expression that holds the embedded effect, or none.
// Goes down the operand in which the forms may be as many as there are tokens: the first one, or the last arm of a choice.
#[cycle(summed)]
#[tactic(auto, using(typed_prog::proofs::Equations::view_laws, crate::proofs::Down::summary_turns))]
pub(crate) fn summed(
    globals: &[bool],
    locals: &[bool],
    embedded: Embedded,
    value: &Value,
) -> Summary
    ensures { result ≡ spec.node_summed (plain_of globals.now locals.now) embedded (view_value_node value.now.node) }
{
    let mut around = nothing_around();
    let mut rest = value;
    loop {
        match &rest.node {
            ValueNode::Constant(_) => return whole(around, quiet()),
            ValueNode::Null => return whole(around, quiet()),
            ValueNode::Temporary(_) => return whole(around, quiet()),
            ValueNode::Apply(op, operands) => {
                around = outside(around, operator_of(globals, locals, embedded, op));
                let Some((first, others)) = operands.as_slice().split_first() else {
                    return whole(around, quiet());
                };
                let others = all_summed(globals, locals, embedded, others);
                around = outside(around, beside_this(others));
                rest = first;
            }
            ValueNode::Logic(_, first, second) => {
                let second = summed(globals, locals, embedded, second.get());
                around = outside(around, in_order_with(second));
                rest = first.get();
            }
            ValueNode::Choose(test, first, second) => {
                let test = summed(globals, locals, embedded, test.get());
                let first = summed(globals, locals, embedded, first.get());
                around = outside(around, choice_of(test, first));
                rest = second.get();
            }
            ValueNode::Effect(effect, operands) => {
                around = outside(around, effect_of(effect));
                let Some((first, others)) = operands.as_slice().split_first() else {
                    return whole(around, quiet());
                };
                let others = all_summed(globals, locals, embedded, others);
                around = outside(around, beside_this(others));
                rest = first;
            }
        }
    }
}

/// What is known of all operands.
#[cycle(summed)]
#[tactic(auto, using(crate::proofs::Operands::summary_laws))]
pub(crate) fn all_summed(
    globals: &[bool],
    locals: &[bool],
    embedded: Embedded,
    operands: &[Value],
) -> Summary
    ensures { result ≡ spec.all_summed (plain_of globals.now locals.now) embedded (t.values_of (map view_value operands.now)) }
{
    let mut whole = quiet();
    let mut left = operands.len();
    while left > 0 {
        left -= 1;
        let one = summed(globals, locals, embedded, &operands[left]);
        whole = beside(one, whole);
    }
    whole
}

/// What is known of an outer compound assignment, which also reads its object.
pub(crate) fn updated_summed(
    globals: &[bool],
    locals: &[bool],
    embedded: Embedded,
    path: &Path,
    operands: &[Value],
) -> Summary
    ensures { result ≡ spec.updated_summed (plain_of globals.now locals.now) embedded path.now (t.values_of (map view_value operands.now)) }
{
    let Some((value, rest)) = operands.split_first() else {
        return quiet();
    };
    let may = may_read(globals, locals, embedded, path.root);
    let rest = reading(may, all_summed(globals, locals, embedded, rest));
    beside(summed(globals, locals, embedded, value), rest)
}
