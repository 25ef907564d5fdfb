// Which punctuators are which operators, and how tightly they bind (C11 6.5).
ghost use Rattle.std.specs.Prelude.{◌≡◌};
ghost use Rattle.c_grammar.specs.Operators as table;

use c_syntax::{BinOp, Punct, UnOp};

/// The loosest level of the operators of two operands.
pub const LOOSEST: u32 = 10;

/// The level of the shifts.
pub const SHIFTS: u32 = 3;

/// The operator before an operand that is spelled so (C11 6.5.3).
pub fn unop_of(punct: Punct) -> Option<UnOp>
    ensures { result ≡ table.unop_of punct }
{
    match punct {
        Punct::Amp => Some(UnOp::AddressOf),
        Punct::Star => Some(UnOp::Deref),
        Punct::Plus => Some(UnOp::Plus),
        Punct::Minus => Some(UnOp::Minus),
        Punct::Tilde => Some(UnOp::BitNot),
        Punct::Not => Some(UnOp::Not),
        _ => None,
    }
}

/// The operator of two operands that is spelled so (C11 6.5.5 to 6.5.14).
pub fn binop_of(punct: Punct) -> Option<BinOp>
    ensures { result ≡ table.binop_of punct }
{
    match punct {
        Punct::Star => Some(BinOp::Mul),
        Punct::Slash => Some(BinOp::Div),
        Punct::Percent => Some(BinOp::Rem),
        Punct::Plus => Some(BinOp::Add),
        Punct::Minus => Some(BinOp::Sub),
        Punct::Shl => Some(BinOp::Shl),
        Punct::Shr => Some(BinOp::Shr),
        Punct::Less => Some(BinOp::Less),
        Punct::AtMost => Some(BinOp::AtMost),
        Punct::Greater => Some(BinOp::Greater),
        Punct::AtLeast => Some(BinOp::AtLeast),
        Punct::Equal => Some(BinOp::Equal),
        Punct::NotEqual => Some(BinOp::NotEqual),
        Punct::Amp => Some(BinOp::BitAnd),
        Punct::Caret => Some(BinOp::BitXor),
        Punct::Bar => Some(BinOp::BitOr),
        Punct::And => Some(BinOp::And),
        Punct::Or => Some(BinOp::Or),
        _ => None,
    }
}

/// The level of an operator of two operands, from the tightest, 1.
pub fn level_of(op: BinOp) -> u32
    ensures { result ≡ table.level op }
{
    match op {
        BinOp::Mul | BinOp::Div | BinOp::Rem => 1,
        BinOp::Add | BinOp::Sub => 2,
        BinOp::Shl | BinOp::Shr => 3,
        BinOp::Less | BinOp::AtMost | BinOp::Greater | BinOp::AtLeast => 4,
        BinOp::Equal | BinOp::NotEqual => 5,
        BinOp::BitAnd => 6,
        BinOp::BitXor => 7,
        BinOp::BitOr => 8,
        BinOp::And => 9,
        BinOp::Or => 10,
    }
}
