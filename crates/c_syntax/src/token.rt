// Tokens (C11 6.4, ACSL 2.2).

use wp_base::{Line, List, Str};

/// The base in which a number is written (C11 6.4.4.1).
#[derive(Clone, Copy, PartialEq, Eq)]
pub enum Base {
    Decimal,
    Octal,
    Hexadecimal,
}

/// The suffix of a number (C11 6.4.4.1): unsigned or not, and none, `l` or `ll`.
#[derive(Clone, Copy, PartialEq, Eq)]
pub enum Suffix {
    None,
    U,
    L,
    UL,
    LL,
    ULL,
}

/// The words of C (C11 6.4.1), and the names with a backslash of annotations (ACSL 2.2).
#[derive(Clone, Copy, PartialEq, Eq)]
pub enum Word {
    Bool,
    Break,
    Case,
    Char,
    Const,
    Continue,
    Default,
    Do,
    Else,
    Enum,
    Extern,
    For,
    If,
    Int,
    Long,
    Return,
    Short,
    Signed,
    SizeOf,
    Static,
    Struct,
    Switch,
    Typedef,
    Unsigned,
    Void,
    While,
    /// `\true`, and so on.
    True,
    False,
    Result,
    Old,
    At,
    Null,
    Nothing,
    Forall,
    Exists,
    Let,
    Valid,
    ValidRead,
    Separated,
    From,
}

/// The punctuators of C (C11 6.4.6), and those of annotations (ACSL 2.2).
#[derive(Clone, Copy, PartialEq, Eq)]
pub enum Punct {
    /// `<==>`, in annotations alone.
    Iff,
    /// `==>`, in annotations alone.
    Implies,
    /// `...`
    Ellipsis,
    /// `<<=`
    ShlAssign,
    /// `>>=`
    ShrAssign,
    /// `->`
    Arrow,
    /// `++`
    Increment,
    /// `--`
    Decrement,
    /// `<<`
    Shl,
    /// `>>`
    Shr,
    /// `<=`
    AtMost,
    /// `>=`
    AtLeast,
    /// `==`
    Equal,
    /// `!=`
    NotEqual,
    /// `&&`
    And,
    /// `||`
    Or,
    /// `^^`, in annotations alone.
    Xor,
    /// `*=`
    MulAssign,
    /// `/=`
    DivAssign,
    /// `%=`
    RemAssign,
    /// `+=`
    AddAssign,
    /// `-=`
    SubAssign,
    /// `&=`
    BitAndAssign,
    /// `^=`
    BitXorAssign,
    /// `|=`
    BitOrAssign,
    /// `..`, in annotations alone.
    Range,
    OpenBracket,
    CloseBracket,
    OpenParen,
    CloseParen,
    OpenBrace,
    CloseBrace,
    Dot,
    /// `&`
    Amp,
    Star,
    Plus,
    Minus,
    /// `~`
    Tilde,
    /// `!`
    Not,
    Slash,
    Percent,
    Less,
    Greater,
    /// `^`
    Caret,
    /// `|`
    Bar,
    Question,
    Colon,
    Semicolon,
    Assign,
    Comma,
}

/// What a token is.
#[derive(Drop)]
pub enum TokenKind {
    Name(Str),
    Word(Word),
    Number {
        value: i128,
        base: Base,
        suffix: Suffix,
    },
    /// A character constant, with its value as a plain `char`.
    Char(i128),
    Punct(Punct),
    /// What opens an annotation, and what ends it.
    AnnotOpen,
    AnnotClose,
}

/// A token, with the line on which it begins.
#[derive(Drop)]
pub struct Token {
    pub kind: TokenKind,
    pub line: Line,
}

/// The tokens of a text, in order.
pub type Tokens = List<Token>;
