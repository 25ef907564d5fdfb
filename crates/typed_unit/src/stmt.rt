// Statements whose expressions are typed (C11 6.8).

use c_syntax::{LoopAnnot, Pred};
use typed_prog::Value;
use wp_base::{Boxed, Line, List};

/// A statement, with the line of its keyword.
#[derive(Drop)]
#[cycle(typed_stmt)]
pub struct Stmt<'a> {
    pub node: StmtNode<'a>,
    pub line: Line,
}

/// What a statement does. Annotations are those of the program as spelled.
#[derive(Drop)]
#[cycle(typed_stmt)]
pub enum StmtNode<'a> {
    Empty,
    Expr(Value),
    Block(List<Stmt<'a>>),
    /// Locals of the block around, which are declared here, in order.
    Locals(List<Declared>),
    /// One without `else` has an empty statement there.
    If(Value, Boxed<Stmt<'a>>, Boxed<Stmt<'a>>),
    /// `while`, `do` and `for` alike; what a `for` does first stands before it, in a block around both.
    Loop(&'a LoopAnnot, Turns, Boxed<Stmt<'a>>),
    Switch(Value, List<Stmt<'a>>),
    /// A label of the `switch` around, with a number of the kind of its operand.
    Case(i128),
    Default,
    Break,
    Continue,
    Return(Option<Value>),
    Assert(&'a Pred),
}

/// What a loop evaluates beside its body: the condition of `while` and `for`, before each turn; that of `do`, after each; and the step
/// of a `for`, behind each. No condition is one that holds.
#[derive(Drop)]
pub struct Turns {
    pub before: Option<Value>,
    pub after: Option<Value>,
    pub step: Option<Value>,
}

/// A local that is declared: its number among those of the function, and its initialiser.
#[derive(Drop)]
pub struct Declared {
    pub local: u32,
    pub init: Option<Value>,
    pub line: Line,
}
