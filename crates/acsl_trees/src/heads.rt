// What nodes of typed annotations do with the values of their kids (ACSL 2.2). None of these types has a tree in it.
use typed_prog::{Arithmetic, Comparison, Variable};
use wp_base::{Kind, Line};

/// The state in which a term is read (ACSL 2.4.3). `Old` is `Pre`.
#[derive(Clone, Copy, PartialEq, Eq)]
pub enum Label {
    Here,
    Pre,
    Post,
    LoopEntry,
}

/// What stands at an address: an integer of a kind, a pointer, or the cells of the struct with this number in the file.
#[derive(Clone, Copy)]
pub enum Content {
    Integer(Kind),
    Pointer,
    Struct(u32),
}

/// Where the quantifier of a binder stands: its line, and how many nodes of its annotation were counted up to it. It says nothing of the
/// truth; it tells apart quantifiers that are spelled alike.
#[derive(Clone, Copy)]
pub struct BinderPlace {
    pub line: Line,
    pub node: u32,
}

/// Over which numbers a binder goes (ACSL 2.2.2), and where its quantifier stands.
#[derive(Clone, Copy)]
pub enum Range {
    /// From the value of the first kid to that of the second one, each itself left out or not.
    Between {
        low_out: bool,
        high_out: bool,
        place: BinderPlace,
    },
    /// All that a kind holds.
    Kind(Kind, BinderPlace),
}

/// What a node is. Its kids' values are integers, pointers, addresses of objects, or sets of addresses; a predicate has the value 1 where
/// it is true, and else 0, and what is taken for a truth is true where it isn't 0.
#[derive(Clone, Copy)]
pub enum Head {
    Number(i128),
    Null,
    /// A parameter of the definition by its number, and behind those the binder with so many binders of the annotation around it.
    Name(u32),
    /// The definition with this number in the file, for these arguments.
    Call(u32),
    /// `\result`.
    Result,
    /// The kid, read in this state.
    At(Label),

    // ---- addresses of objects
    Variable(Variable),
    /// Where a pointer leads.
    Pointed,
    /// The field with this number, whose first cell is the one with this offset in the struct at the kid.
    Field {
        number: u32,
        offset: u32,
    },
    /// An element of an array of `count` elements of `size` cells each, with its index behind it.
    Element {
        size: u32,
        count: u32,
    },
    /// All elements of an array from an index to another one.
    Elements {
        size: u32,
        count: u32,
    },
    /// Where a pointer leads that is moved by each number from one to another one, over elements of so many cells.
    Behind {
        size: u32,
    },

    // ---- what is made of an address, and pointers
    /// What the object at an address holds, in the state in force or in this one.
    Read {
        content: Content,
        label: Option<Label>,
    },
    /// The pointer to an object, and to the first element of an array.
    Address,
    /// A pointer moved by an integer, over elements of so many cells.
    Moved {
        minus: bool,
        size: u32,
    },
    /// The difference of two pointers to elements of so many cells.
    Difference {
        size: u32,
    },

    // ---- integers
    Negate,
    Complement,
    /// Both operands are unbounded integers.
    Arithmetic(Arithmetic),
    /// A cast to a kind.
    Convert(Kind),

    // ---- truths
    Compare(Comparison),
    ComparePointers(Comparison),
    Not,
    And,
    Or,
    Xor,
    Implies,
    Iff,
    /// `?:`, whose first kid is a truth.
    Choose,
    /// A first term, and links behind it: each compares with the one before.
    Chain,
    Link(Comparison),
    LinkPointers(Comparison),
    /// The value of the first kid is what the binder in the second one stands for.
    Let,
    /// The last kid is true for every number of the range.
    Every(Range),
    /// It is true for some.
    Some(Range),
    /// Each address of a set may be read, and written too or not; what stands at each has this content.
    Valid {
        content: Content,
        writable: bool,
    },
    /// No two of the regions have a cell in common.
    Separated,
    /// A set of addresses, with what stands at each.
    Region(Content),
}
