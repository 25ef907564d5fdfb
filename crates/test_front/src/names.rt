// How the parts of trees that have no parts are printed.

use c_syntax::{Base, BinOp, Punct, Suffix, UnOp, Word};
use wp_base::Kind;

pub fn kind_name(kind: Kind) -> &'static str {
    match kind {
        Kind::Bool => "bool",
        Kind::Char => "char",
        Kind::SChar => "schar",
        Kind::UChar => "uchar",
        Kind::Short => "short",
        Kind::UShort => "ushort",
        Kind::Int => "int",
        Kind::UInt => "uint",
        Kind::Long => "long",
        Kind::ULong => "ulong",
        Kind::LLong => "llong",
        Kind::ULLong => "ullong",
    }
}

pub fn prefix_name(op: UnOp) -> &'static str {
    match op {
        UnOp::AddressOf => "address",
        UnOp::Deref => "deref",
        UnOp::Plus => "plus",
        UnOp::Minus => "minus",
        UnOp::BitNot => "~",
        UnOp::Not => "!",
    }
}

pub fn operator_name(op: BinOp) -> &'static str {
    match op {
        BinOp::Mul => "*",
        BinOp::Div => "/",
        BinOp::Rem => "%",
        BinOp::Add => "+",
        BinOp::Sub => "-",
        BinOp::Shl => "<<",
        BinOp::Shr => ">>",
        BinOp::Less => "<",
        BinOp::AtMost => "<=",
        BinOp::Greater => ">",
        BinOp::AtLeast => ">=",
        BinOp::Equal => "==",
        BinOp::NotEqual => "!=",
        BinOp::BitAnd => "&",
        BinOp::BitXor => "^",
        BinOp::BitOr => "|",
        BinOp::And => "&&",
        BinOp::Or => "||",
    }
}

pub fn suffix_name(suffix: Suffix) -> &'static str {
    match suffix {
        Suffix::None => "",
        Suffix::U => "u",
        Suffix::L => "l",
        Suffix::UL => "ul",
        Suffix::LL => "ll",
        Suffix::ULL => "ull",
    }
}

pub fn base_name(base: Base) -> &'static str {
    match base {
        Base::Decimal => "",
        Base::Octal => "octal",
        Base::Hexadecimal => "hex",
    }
}

pub fn step_name(up: bool, prefix: bool) -> &'static str {
    match (up, prefix) {
        (true, true) => "++x",
        (true, false) => "x++",
        (false, true) => "--x",
        (false, false) => "x--",
    }
}

pub fn field_name(arrow: bool) -> &'static str {
    if arrow { "->" } else { "." }
}

pub fn word_text(word: Word) -> &'static str {
    match word {
        Word::Bool => "_Bool",
        Word::Break => "break",
        Word::Case => "case",
        Word::Char => "char",
        Word::Const => "const",
        Word::Continue => "continue",
        Word::Default => "default",
        Word::Do => "do",
        Word::Else => "else",
        Word::Enum => "enum",
        Word::Extern => "extern",
        Word::For => "for",
        Word::If => "if",
        Word::Int => "int",
        Word::Long => "long",
        Word::Return => "return",
        Word::Short => "short",
        Word::Signed => "signed",
        Word::SizeOf => "sizeof",
        Word::Static => "static",
        Word::Struct => "struct",
        Word::Switch => "switch",
        Word::Typedef => "typedef",
        Word::Unsigned => "unsigned",
        Word::Void => "void",
        Word::While => "while",
        Word::True => "\\true",
        Word::False => "\\false",
        Word::Result => "\\result",
        Word::Old => "\\old",
        Word::At => "\\at",
        Word::Null => "\\null",
        Word::Nothing => "\\nothing",
        Word::Forall => "\\forall",
        Word::Exists => "\\exists",
        Word::Let => "\\let",
        Word::Valid => "\\valid",
        Word::ValidRead => "\\valid_read",
        Word::Separated => "\\separated",
        Word::From => "\\from",
    }
}

pub fn punct_text(punct: Punct) -> &'static str {
    match punct {
        Punct::Iff => "<==>",
        Punct::Implies => "==>",
        Punct::Ellipsis => "...",
        Punct::ShlAssign => "<<=",
        Punct::ShrAssign => ">>=",
        Punct::Arrow => "->",
        Punct::Increment => "++",
        Punct::Decrement => "--",
        Punct::Shl => "<<",
        Punct::Shr => ">>",
        Punct::AtMost => "<=",
        Punct::AtLeast => ">=",
        Punct::Equal => "==",
        Punct::NotEqual => "!=",
        Punct::And => "&&",
        Punct::Or => "||",
        Punct::Xor => "^^",
        Punct::MulAssign => "*=",
        Punct::DivAssign => "/=",
        Punct::RemAssign => "%=",
        Punct::AddAssign => "+=",
        Punct::SubAssign => "-=",
        Punct::BitAndAssign => "&=",
        Punct::BitXorAssign => "^=",
        Punct::BitOrAssign => "|=",
        Punct::Range => "..",
        Punct::OpenBracket => "[",
        Punct::CloseBracket => "]",
        Punct::OpenParen => "(",
        Punct::CloseParen => ")",
        Punct::OpenBrace => "{",
        Punct::CloseBrace => "}",
        Punct::Dot => ".",
        Punct::Amp => "&",
        Punct::Star => "*",
        Punct::Plus => "+",
        Punct::Minus => "-",
        Punct::Tilde => "~",
        Punct::Not => "!",
        Punct::Slash => "/",
        Punct::Percent => "%",
        Punct::Less => "<",
        Punct::Greater => ">",
        Punct::Caret => "^",
        Punct::Bar => "|",
        Punct::Question => "?",
        Punct::Colon => ":",
        Punct::Semicolon => ";",
        Punct::Assign => "=",
        Punct::Comma => ",",
    }
}
