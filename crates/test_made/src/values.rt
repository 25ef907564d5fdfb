// The expressions that bodies are written with, each a letter: variables x, y and z, of which z has no value from its declaration on; a constant; the
// quotient of x and y; -x; x && y; x = x + y; f(x); z = f(x).
use std::alloc::Global;
use typed_prog::{
    Arithmetic, Connective, CoreType, Effect, Op, Path, Root, Value, ValueNode, Variable,
};
use wp_base::{Boxed, Kind, List, NoMemory};

/// Expressions, by letters.
#[derive(Drop)]
pub(crate) struct Values {
    pub(crate) x: Value,
    pub(crate) y: Value,
    pub(crate) z: Value,
    pub(crate) one: Value,
    pub(crate) quotient: Value,
    pub(crate) negated: Value,
    pub(crate) both: Value,
    pub(crate) assigned: Value,
    pub(crate) called: Value,
    pub(crate) called_into: Value,
}

fn int(alloc: Global, node: ValueNode) -> Value {
    Value {
        node,
        ty: CoreType::of_kind(alloc, Kind::Int),
        line: 1,
    }
}

fn local(alloc: Global, number: u32) -> Path {
    Path {
        root: Root::Variable(Variable::Local(number)),
        steps: List::new(alloc),
        line: 1,
    }
}

fn read(alloc: Global, number: u32) -> Value {
    let path = local(alloc, number);
    int(alloc, ValueNode::Apply(Op::Read(path), List::new(alloc)))
}

fn one_of(alloc: Global, operand: Value) -> Result<List<Value>, NoMemory> {
    let mut operands = List::new(alloc);
    operands.push(operand)?;
    Ok(operands)
}

fn two_of(alloc: Global, first: Value, second: Value) -> Result<List<Value>, NoMemory> {
    Ok(List::from_vec(Vec::from_array(alloc, [first, second])?))
}

fn calculated(alloc: Global, op: Arithmetic) -> Result<Value, NoMemory> {
    let operands = two_of(alloc, read(alloc, 0), read(alloc, 1))?;
    Ok(int(alloc, ValueNode::Apply(Op::Arithmetic(op), operands)))
}

fn negated(alloc: Global) -> Result<Value, NoMemory> {
    let operands = one_of(alloc, read(alloc, 0))?;
    Ok(int(alloc, ValueNode::Apply(Op::Negate, operands)))
}

fn both(alloc: Global) -> Result<Value, NoMemory> {
    let first = Boxed::new(alloc, read(alloc, 0))?;
    let second = Boxed::new(alloc, read(alloc, 1))?;
    Ok(int(alloc, ValueNode::Logic(Connective::And, first, second)))
}

fn called(alloc: Global) -> Result<Value, NoMemory> {
    let arguments = one_of(alloc, read(alloc, 0))?;
    Ok(int(alloc, ValueNode::Effect(Effect::Call(7), arguments)))
}

// An assignment of a value to a variable.
fn assigned(alloc: Global, number: u32, value: Value) -> Result<Value, NoMemory> {
    let operands = one_of(alloc, value)?;
    let path = local(alloc, number);
    Ok(int(alloc, ValueNode::Effect(Effect::Assign(path), operands)))
}

fn sum_assigned(alloc: Global) -> Result<Value, NoMemory> {
    let sum = calculated(alloc, Arithmetic::Add)?;
    assigned(alloc, 0, sum)
}

fn call_assigned(alloc: Global) -> Result<Value, NoMemory> {
    let call = called(alloc)?;
    assigned(alloc, 2, call)
}

/// All of them.
pub(crate) fn made_values(alloc: Global) -> Result<Values, NoMemory> {
    let quotient = calculated(alloc, Arithmetic::Div)?;
    let negated = negated(alloc)?;
    let both = both(alloc)?;
    let assigned = sum_assigned(alloc)?;
    let called = called(alloc)?;
    let called_into = call_assigned(alloc)?;
    Ok(Values {
        x: read(alloc, 0),
        y: read(alloc, 1),
        z: read(alloc, 2),
        one: int(alloc, ValueNode::Constant(1)),
        quotient,
        negated,
        both,
        assigned,
        called,
        called_into,
    })
}

impl Values {
    /// The expression of a letter; none at another one.
    pub(crate) fn at(&self, letter: u8) -> Option<&Value> {
        match letter {
            b'x' => Some(&self.x),
            b'y' => Some(&self.y),
            b'z' => Some(&self.z),
            b'1' => Some(&self.one),
            b'q' => Some(&self.quotient),
            b'n' => Some(&self.negated),
            b'b' => Some(&self.both),
            b'a' => Some(&self.assigned),
            b'f' => Some(&self.called),
            b'g' => Some(&self.called_into),
            _ => None,
        }
    }
}
