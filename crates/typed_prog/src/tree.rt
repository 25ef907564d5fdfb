// Expressions with their types (C11 6.5).
ghost use Rattle.std.specs.Prelude.{◌≡◌, ◌∷◌, MatchResult};

use crate::operators::{Connective, Effect, Op};
use crate::types::CoreType;
use wp_base::{Boxed, Line, List};

/// An expression whose value is wanted, with the type of that value and the line of its token or operator.
#[cycle(typed)]
pub struct Value {
    pub node: ValueNode,
    pub ty: CoreType,
    pub line: Line,
}

/// What an expression does. All operators that evaluate each operand are one form.
#[derive(Drop)]
#[cycle(typed)]
pub enum ValueNode {
    /// An integer constant expression that has a value.
    Constant(i128),
    /// The null pointer.
    Null,
    /// A temporary of a core program; typed programs have none.
    Temporary(u32),
    Apply(Op, List<Value>),
    Logic(Connective, Boxed<Value>, Boxed<Value>),
    Choose(Boxed<Value>, Boxed<Value>, Boxed<Value>),
    Effect(Effect, List<Value>),
}

// Goes down the first operands by a loop, since these may be as many as there are tokens.
impl Drop for Value {
    #[cycle(value_drop)]
    fn drop(mut self) {
        loop {
            let Value { node, ty, line: _ } = self;
            drop(ty);
            match node {
                ValueNode::Constant(_) | ValueNode::Null | ValueNode::Temporary(_) => return,
                ValueNode::Logic(_, first, second) => {
                    drop(second);
                    self = first.into_inner();
                }
                ValueNode::Choose(test, first, second) => {
                    drop(first);
                    drop(second);
                    self = test.into_inner();
                }
                ValueNode::Apply(op, operands) => {
                    drop(op);
                    match first_and_rest(operands) {
                        Ok((first, rest)) => {
                            drop(rest);
                            self = first;
                        }
                        Err(none) => return drop(none),
                    }
                }
                ValueNode::Effect(effect, operands) => {
                    drop(effect);
                    match first_and_rest(operands) {
                        Ok((first, rest)) => {
                            drop(rest);
                            self = first;
                        }
                        Err(none) => return drop(none),
                    }
                }
            }
        }
    }
}

/// The first item of a list and the others, or the list that has none.
pub(crate) fn first_and_rest<T>(items: List<T>) -> Result<(T, List<T>), List<T>>
    ensures { MatchResult result (λ two. two.0 ∷ two.1 ≡ items) (λ none. none ≡ items) }
{
    let mut items = items.into_vec();
    if items.is_empty() {
        return Err(List::from_vec(items));
    }
    let first = items.remove(0);
    Ok((first, List::from_vec(items)))
}
