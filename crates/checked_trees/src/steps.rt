// Statements of core programs with what is asked before each. What they are made of they borrow from the core program.
ghost use Rattle.std.specs.Prelude.{◌≡◌, ◌∷◌, MatchResult};

use check_lists::Check;
use core_trees::{Claim, Loop};
use typed_prog::{CoreType, Path, Value};
use wp_base::{Line, List};

/// Where the result of a call goes. What is asked of a place is asked behind the call.
#[derive(Drop)]
pub enum Goal<'a> {
    Nowhere,
    Temporary(u32),
    Place(List<Check>, &'a CoreType, Line, &'a Path, &'a List<Value>),
    Variable(u32),
}

/// A statement, and the checks that are asked before it.
pub enum Step<'a> {
    Set(List<Check>, u32, &'a Value),
    Store(List<Check>, &'a CoreType, Line, &'a Path, &'a List<Value>),
    Start(List<Check>, u32, &'a Value),
    Call(List<Check>, Goal<'a>, u32, Line, &'a List<Value>),
    Branch(List<Check>, &'a Value, List<Step<'a>>, List<Step<'a>>),
    Repeat(&'a Loop, List<Step<'a>>),
    Around(List<Step<'a>>),
    Exit(u32),
    Give(List<Check>, &'a Option<Value>),
    Claim(&'a Claim),
    Scope(&'a List<u32>, List<Step<'a>>),
}

// Goes down the first statements of blocks by a loop, since a switch has as many blocks in one another as it has labels.
impl<'a> Drop for Step<'a> {
    #[cycle(step_drop)]
    fn drop(mut self) {
        loop {
            match self {
                Step::Set(checks, _, _)
                | Step::Store(checks, _, _, _, _)
                | Step::Start(checks, _, _)
                | Step::Give(checks, _) => return drop(checks),
                Step::Call(checks, to, _, _, _) => {
                    drop(checks);
                    return drop(to);
                }
                Step::Branch(checks, _, first, second) => {
                    drop(checks);
                    drop(first);
                    return drop(second);
                }
                Step::Repeat(_, body) | Step::Scope(_, body) => return drop(body),
                Step::Around(body) => match first_and_rest(body) {
                    Ok((first, rest)) => {
                        drop(rest);
                        self = first;
                    }
                    Err(none) => return drop(none),
                },
                Step::Exit(_) | Step::Claim(_) => return,
            }
        }
    }
}

// The first item of a list and the others, or the list that has none.
fn first_and_rest<T>(items: List<T>) -> Result<(T, List<T>), List<T>>
    ensures { MatchResult result (λ two. two.0 ∷ two.1 ≡ items) (λ none. none ≡ items) }
{
    let mut items = items.into_vec();
    if items.is_empty() {
        return Err(List::from_vec(items));
    }
    let first = items.remove(0);
    Ok((first, List::from_vec(items)))
}
