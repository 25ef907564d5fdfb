// The words of heads.
ghost use Rattle.std.specs.Prelude.{◌≡◌};
ghost use Rattle.goal_words.specs.Kinds.{row_of};
ghost use Rattle.goal_text.specs.Words as spec;

use goal_words::row_of;
use qed_terms::{Shape, Sort};

/// The word of a head of terms.
#[derive(Clone, Copy)]
pub enum TermWord {
    Add,
    Sub,
    Mul,
    Neg,
    Div,
    Mod,
    Wrap,
    ShiftLeft,
    ShiftRight,
    BitAnd,
    BitOr,
    BitXor,
    BitNot,
    Ite,
    Load,
    Count,
    Len,
    App,
    Store,
    Alloc,
    Grow,
}

/// The word of a head of formulas.
#[derive(Clone, Copy)]
pub enum FormWord {
    Equal,
    AtMost,
    Less,
    Same,
    Not,
    And,
    Or,
    Imp,
    Iff,
    Forall,
    Exists,
    Read,
    Write,
    Live,
    Has,
    WellFormed,
    Frame,
}

const TERM_WORDS: [(&[u8], TermWord); 21] = [
    (b"+", TermWord::Add),
    (b"-", TermWord::Sub),
    (b"*", TermWord::Mul),
    (b"neg", TermWord::Neg),
    (b"div", TermWord::Div),
    (b"mod", TermWord::Mod),
    (b"wrap", TermWord::Wrap),
    (b"shl", TermWord::ShiftLeft),
    (b"shr", TermWord::ShiftRight),
    (b"band", TermWord::BitAnd),
    (b"bor", TermWord::BitOr),
    (b"bxor", TermWord::BitXor),
    (b"bnot", TermWord::BitNot),
    (b"ite", TermWord::Ite),
    (b"load", TermWord::Load),
    (b"count", TermWord::Count),
    (b"len", TermWord::Len),
    (b"app", TermWord::App),
    (b"store", TermWord::Store),
    (b"alloc", TermWord::Alloc),
    (b"grow", TermWord::Grow),
];

const FORM_WORDS: [(&[u8], FormWord); 17] = [
    (b"=", FormWord::Equal),
    (b"<=", FormWord::AtMost),
    (b"<", FormWord::Less),
    (b"same", FormWord::Same),
    (b"not", FormWord::Not),
    (b"and", FormWord::And),
    (b"or", FormWord::Or),
    (b"imp", FormWord::Imp),
    (b"iff", FormWord::Iff),
    (b"forall", FormWord::Forall),
    (b"exists", FormWord::Exists),
    (b"read", FormWord::Read),
    (b"write", FormWord::Write),
    (b"live", FormWord::Live),
    (b"has", FormWord::Has),
    (b"wf", FormWord::WellFormed),
    (b"frame", FormWord::Frame),
];

/// The head of terms that a word names.
pub fn term_word(word: &[u8]) -> Option<TermWord>
    ensures { result ≡ row_of spec.term_words word.now }
{
    row_of(&TERM_WORDS, word)
}

/// The head of formulas that a word names.
pub fn form_word(word: &[u8]) -> Option<FormWord>
    ensures { result ≡ row_of spec.form_words word.now }
{
    row_of(&FORM_WORDS, word)
}

/// The shape of a region that a word names.
pub fn shape_of(word: &[u8]) -> Option<Shape>
    ensures { result ≡ spec.shape_of word.now }
{
    const CELLS: &[u8] = b"cells";
    const NEW: &[u8] = b"new";
    if word == CELLS {
        return Some(Shape::Cells);
    }
    if word == NEW {
        return Some(Shape::New);
    }
    None
}

impl TermWord {
    /// The sort of what the head makes.
    pub fn sort(self) -> Sort
        ensures { result ≡ spec.sort_of self }
    {
        match self {
            TermWord::Store => Sort::Memory,
            TermWord::Alloc | TermWord::Grow => Sort::Table,
            _ => Sort::Int,
        }
    }
}
