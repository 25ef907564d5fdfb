// Statements of core programs. Their expressions have no effect, connective or choice in them.
ghost use Rattle.std.specs.Prelude.{◌≡◌, ◌∷◌, MatchResult};

use crate::claims::{Claim, Loop};
use typed_prog::{CoreType, Path, Value};
use wp_base::{Line, List};

/// Where the result of a call goes.
#[derive(Drop)]
pub enum Target {
    Nowhere,
    Temporary(u32),
    /// An object of this type, with its line, and its way with the operands of that.
    Place(CoreType, Line, Path, List<Value>),
    /// The variable with this number, which is declared with it.
    Variable(u32),
}

/// A statement of a core program.
pub enum Core {
    /// A temporary gets a value.
    Set(u32, Value),
    /// An object of this type gets the first value; the others are the operands of its way.
    Store(CoreType, Line, Path, List<Value>),
    /// The value that a variable is declared with.
    Start(u32, Value),
    /// The function with this number is called at this line, with these arguments.
    Call(Target, u32, Line, List<Value>),
    Branch(Value, List<Core>, List<Core>),
    /// A loop, which goes on for ever: it is left by an exit.
    Repeat(Loop, List<Core>),
    /// A block, which an exit may leave.
    Around(List<Core>),
    /// Leaves the block with this number, counted from 0 for the innermost one.
    Exit(u32),
    /// The function returns.
    Give(Option<Value>),
    Claim(Claim),
    /// A block of these variables, which live in it.
    Scope(List<u32>, List<Core>),
}

// Goes down the first statements of blocks by a loop, since a switch has as many blocks in one another as it has labels.
impl Drop for Core {
    #[cycle(core_drop)]
    fn drop(mut self) {
        loop {
            match self {
                Core::Set(_, value) | Core::Start(_, value) => return drop(value),
                Core::Store(ty, _, path, values) => {
                    drop(ty);
                    drop(path);
                    return drop(values);
                }
                Core::Call(to, _, _, arguments) => {
                    drop(to);
                    return drop(arguments);
                }
                Core::Branch(test, first, second) => {
                    drop(test);
                    drop(first);
                    return drop(second);
                }
                Core::Repeat(claims, body) => {
                    drop(claims);
                    return drop(body);
                }
                Core::Around(body) => match first_and_rest(body) {
                    Ok((first, rest)) => {
                        drop(rest);
                        self = first;
                    }
                    Err(none) => return drop(none),
                },
                Core::Exit(_) => return,
                Core::Give(value) => return drop(value),
                Core::Claim(claim) => return drop(claim),
                Core::Scope(variables, body) => {
                    drop(variables);
                    return drop(body);
                }
            }
        }
    }
}

// The first item of a list and the others, or the list that has none.
fn first_and_rest<T>(items: List<T>) -> Result<(T, List<T>), List<T>>
    ensures { MatchResult result (λ two. two.0 ∷ two.1 ≡ items) (λ none. none ≡ items) }
{
    let mut items = items.into_vec();
    if items.is_empty() {
        return Err(List::from_vec(items));
    }
    let first = items.remove(0);
    Ok((first, List::from_vec(items)))
}
