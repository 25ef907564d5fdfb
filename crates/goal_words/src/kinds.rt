// The words of kinds, and how a word is found in a table.
ghost use Rattle.std.specs.Prelude.{◌≡◌, map};
ghost use Rattle.goal_words.specs.Bytes.{named_part};
ghost use Rattle.goal_words.specs.Kinds as spec;
ghost use Rattle.goal_words.specs.Views.{Finds};

use crate::bytes::{part, word};
use wp_base::{CellKind, Kind};

const KIND_WORDS: [(&[u8], Kind); 12] = [
    (b"bool", Kind::Bool),
    (b"char", Kind::Char),
    (b"schar", Kind::SChar),
    (b"uchar", Kind::UChar),
    (b"short", Kind::Short),
    (b"ushort", Kind::UShort),
    (b"int", Kind::Int),
    (b"uint", Kind::UInt),
    (b"long", Kind::Long),
    (b"ulong", Kind::ULong),
    (b"llong", Kind::LLong),
    (b"ullong", Kind::ULLong),
];

/// What stands beside the word in a table.
pub fn row_of<T: Copy>(mut table: &[(&[u8], T)], word: &[u8]) -> Option<T>
    ensures { result ≡ spec.row_of (map (λ row. (row.0.now, row.1)) table.entry.now) word.now }
{
    while let [row, rest @ ..] = table {
        if row.0 == word {
            return Some(row.1);
        }
        table = rest;
    }
    None
}

/// The kind that a word names.
pub fn kind_of(word: &[u8]) -> Option<Kind>
    ensures { result ≡ spec.row_of spec.kind_words word.now }
{
    row_of(&KIND_WORDS, word)
}

/// The kind of a cell that a word names.
pub fn cell_of(word: &[u8]) -> Option<CellKind>
    ensures { result ≡ spec.cell_of word.now }
{
    const PTR: &[u8] = b"ptr";
    if word == PTR {
        return Some(CellKind::Ptr);
    }
    Some(CellKind::Of(kind_of(word)?))
}

/// A space and a kind.
pub fn kind_part(bytes: &[u8]) -> Option<(Kind, &[u8])>
    ensures { Finds result (named_part (spec.row_of spec.kind_words) bytes.now) }
{
    let (found, rest) = part(bytes)?;
    let kind = kind_of(found)?;
    Some((kind, rest))
}

/// A space and the kind of a cell.
pub fn cell_part(bytes: &[u8]) -> Option<(CellKind, &[u8])>
    ensures { Finds result (named_part spec.cell_of bytes.now) }
{
    let (found, rest) = part(bytes)?;
    let kind = cell_of(found)?;
    Some((kind, rest))
}

/// The kind of a cell.
pub fn cell_word(bytes: &[u8]) -> Option<(CellKind, &[u8])>
    ensures { Finds result (spec.cell_word bytes.now) }
{
    let (found, rest) = word(bytes);
    let kind = cell_of(found)?;
    Some((kind, rest))
}

/// The word of a kind.
pub fn kind_text(kind: Kind) -> &'static [u8]
    ensures { result.now ≡ spec.kind_text kind }
{
    match kind {
        Kind::Bool => b"bool",
        Kind::Char => b"char",
        Kind::SChar => b"schar",
        Kind::UChar => b"uchar",
        Kind::Short => b"short",
        Kind::UShort => b"ushort",
        Kind::Int => b"int",
        Kind::UInt => b"uint",
        Kind::Long => b"long",
        Kind::ULong => b"ulong",
        Kind::LLong => b"llong",
        Kind::ULLong => b"ullong",
    }
}

/// The word of the kind of a cell.
pub fn cell_text(cell: CellKind) -> &'static [u8]
    ensures { result.now ≡ spec.cell_text cell }
{
    match cell {
        CellKind::Of(kind) => kind_text(kind),
        CellKind::Ptr => b"ptr",
    }
}
