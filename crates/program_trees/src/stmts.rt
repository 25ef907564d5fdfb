// Statements of programs as they run (C11 6.8). Their expressions are those of the typed file, which they borrow.
use core_trees::{Claim, Loop};
use typed_prog::Value;
use wp_base::{Boxed, Line, List};

/// What a loop evaluates beside its body: the test before it, as `while`; the step behind it, as `for`; the test behind it, as `do`.
#[derive(Clone, Copy)]
pub struct Turns<'a> {
    pub before: Option<&'a Value>,
    pub step: Option<&'a Value>,
    pub behind: Option<&'a Value>,
}

/// A statement. Labels of a switch are statements that do nothing.
pub enum Stmt<'a> {
    Evaluate(&'a Value),
    /// A block with the numbers of its variables, which live in it.
    Block(List<u32>, List<Stmt<'a>>),
    /// The value that the variable with this number is declared with.
    Initial(u32, Line, &'a Value),
    Choose(&'a Value, Boxed<Stmt<'a>>, Boxed<Stmt<'a>>),
    Loop(Loop, Turns<'a>, Boxed<Stmt<'a>>),
    Switch(&'a Value, List<Stmt<'a>>),
    Case(i128),
    Default,
    Break,
    Continue,
    Return(Option<&'a Value>),
    Assert(Claim),
}

// Goes down second arms and bodies of loops by a loop, since an `else if` chain has as many arms in one another as it has tests.
impl<'a> Drop for Stmt<'a> {
    #[cycle(stmt_drop)]
    fn drop(mut self) {
        loop {
            match self {
                Stmt::Evaluate(_)
                | Stmt::Initial(_, _, _)
                | Stmt::Case(_)
                | Stmt::Default
                | Stmt::Break
                | Stmt::Continue
                | Stmt::Return(_) => return,
                Stmt::Block(variables, body) => {
                    drop(variables);
                    return drop(body);
                }
                Stmt::Choose(_, first, second) => {
                    drop(first);
                    self = second.into_inner();
                }
                Stmt::Loop(claims, _, body) => {
                    drop(claims);
                    self = body.into_inner();
                }
                Stmt::Switch(_, body) => return drop(body),
                Stmt::Assert(claim) => return drop(claim),
            }
        }
    }
}
