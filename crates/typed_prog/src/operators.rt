// What nodes of expressions do with the values of their operands (C11 6.5). None of these types has an expression in it.
use wp_base::{Kind, Line, List};

/// A variable, by its number among those of the file or among those of the function, whose parameters come first.
#[derive(Clone, Copy)]
pub enum Variable {
    Global(u32),
    Local(u32),
}

/// The operators on two integers that give an integer (C11 6.5.5 to 6.5.7, 6.5.10 to 6.5.12).
#[derive(Clone, Copy, PartialEq, Eq)]
pub enum Arithmetic {
    Mul,
    Div,
    Rem,
    Add,
    Sub,
    Shl,
    Shr,
    And,
    Xor,
    Or,
}

/// The comparisons (C11 6.5.8, 6.5.9).
#[derive(Clone, Copy, PartialEq, Eq)]
pub enum Comparison {
    Less,
    AtMost,
    Greater,
    AtLeast,
    Equal,
    NotEqual,
}

/// `&&` and `||` (C11 6.5.13, 6.5.14).
#[derive(Clone, Copy, PartialEq, Eq)]
pub enum Connective {
    And,
    Or,
}

/// Where the way to an object begins: at a variable, or where the value of the operand with this number points.
#[derive(Clone, Copy)]
pub enum Root {
    Variable(Variable),
    Pointed(u32),
}

/// A step on the way to an object, inside the object reached so far.
#[derive(Clone, Copy)]
pub enum Step {
    /// The field with this number, whose first cell is the one with this offset in the struct.
    Field {
        number: u32,
        offset: u32,
    },
    /// An element of an array of `count` elements of `size` cells each. Its index is the operand with this number, and the line
    /// is that of the `[`.
    Element {
        operand: u32,
        size: u32,
        count: u32,
        line: Line,
    },
    /// What stands so many elements of `size` cells further on, at a pointer.
    Moved {
        operand: u32,
        size: u32,
    },
}

/// The way to an object, beside the operands: where it begins, its steps, and the line of the last one or of the name. Operands stand
/// in the order in which they are spelled, and have numbers from 0.
#[derive(Drop)]
pub struct Path {
    pub root: Root,
    pub steps: List<Step>,
    pub line: Line,
}

/// What is done with the values of all operands. Conversions and casts give a value of the type of the node.
#[derive(Drop)]
pub enum Op {
    /// The value of an object.
    Read(Path),
    /// `&` of an object, and whether the pointer is at once followed by `*` or `->`.
    Address(Path, bool),
    /// The pointer to the first element of an array (C11 6.3.2.1p3), and whether it is at once followed.
    Decay(Path, bool),
    /// Unary `-`.
    Negate,
    /// `~`
    Complement,
    /// `!`
    Not,
    /// Both operands have the kind of the node, but the right one of a shift.
    Arithmetic(Arithmetic),
    /// Of two integers of one kind.
    Compare(Comparison),
    /// Of two pointers.
    ComparePointers(Comparison),
    /// A pointer moved by an integer.
    Offset {
        minus: bool,
        /// Whether the integer is the first operand.
        index_first: bool,
        /// How many cells the elements have.
        size: u32,
        /// Whether the pointer is at once followed by `*` or `->`.
        accessed: bool,
    },
    /// The difference of two pointers to elements of so many cells.
    Difference {
        size: u32,
    },
    /// A conversion by the context (C11 6.3.1).
    Convert,
    /// A pointer as one to a constant object, by the context (C11 6.3.2.3p2).
    Requalify,
    /// A cast as spelled, to an integer kind or to `void` (C11 6.5.4).
    Cast,
}

/// How a compound assignment or an increment is spelled.
#[derive(Clone, Copy, PartialEq, Eq)]
pub enum UpdateForm {
    /// `+=` and the like.
    Compound,
    /// `++` or `--` before its operand, which gives the new value.
    Prefix,
    /// `++` or `--` behind its operand, which gives the old value.
    Postfix,
}

/// How the new value of an object comes from its old one and the first operand.
#[derive(Clone, Copy)]
pub enum Change {
    /// By this operator, computed in this kind and converted back.
    Integer(Arithmetic, Kind),
    /// A pointer is moved by elements of so many cells.
    Pointer { minus: bool, size: u32 },
}

/// What changes the state. The first operand of an assignment and of an update is the value; those of the place follow.
#[derive(Drop)]
pub enum Effect {
    Assign(Path),
    Update {
        path: Path,
        by: Change,
        form: UpdateForm,
    },
    /// A call of the function with this number; its operands are the arguments.
    Call(u32),
}
