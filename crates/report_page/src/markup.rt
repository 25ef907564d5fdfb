// Pieces of markup: a tag, and the text behind it.
ghost use Rattle.std.specs.Prelude.{◌≡◌, ◌++◌, [], ◌∷◌, IfOk, map};
ghost use Rattle.std.specs.Option.{option_map};
ghost use Rattle.std.specs.Str.Lossy.{utf8_lossy};
ghost use Rattle.report_read.specs.Bytes.{joined};
ghost use Rattle.report_read.specs.View.{bytes_of};
ghost use Rattle.report_page.specs.Markup as spec;
ghost use Rattle.report_page.specs.View.{view_piece, view_text};

use itoa::Buffer;
use report_shown::put;
use std::alloc::Global;
use wp_base::NoMemory;

/// What stands behind a tag.
#[derive(Clone, Copy)]
pub enum Text<'a> {
    Bytes(&'a [u8]),
    Number(u64),
}

/// A tag, without its angle brackets, and the text behind it.
pub type Piece<'a> = (&'a [u8], Text<'a>);

/// No text.
pub const NOTHING: Text<'static> = Text::Bytes(b"");

/// The end of a line.
pub const NEWLINE: Text<'static> = Text::Bytes(b"\n");

#[tactic(auto, unfolding(crate::specs::Markup::reference))]
fn reference(byte: u8) -> Option<&'static [u8]>
    ensures { option_map bytes_of result ≡ spec.reference byte }
{
    if byte == b'&' {
        Some(b"amp")
    } else if byte == b'<' {
        Some(b"lt")
    } else if byte == b'>' {
        Some(b"gt")
    } else if byte == b'"' {
        Some(b"quot")
    } else if byte == b'\r' {
        Some(b"#13")
    } else {
        None
    }
}

fn put_reference(page: &mut Vec<u8>, name: &[u8]) -> Result<(), NoMemory>
    ensures { IfOk result (λ _. page.new.items ≡ page.old.items ++ 38 ∷ (name.now ++ 59 ∷ [])) }
{
    put(page, b"&")?;
    put(page, name)?;
    put(page, b";")
}

#[tactic(auto, unfolding(crate::specs::Markup::escaped))]
fn put_escaped(page: &mut Vec<u8>, byte: u8) -> Result<(), NoMemory>
    ensures { IfOk result (λ _. page.new.items ≡ page.old.items ++ spec.escaped byte) }
{
    match reference(byte) {
        Some(name) => put_reference(page, name),
        None => put(page, &[byte]),
    }
}

#[tactic(auto, using(report_shown::proofs::Joined::joined_more_plain, report_shown::proofs::Joined::joined_end_plain))]
fn put_all_escaped(page: &mut Vec<u8>, bytes: &[u8]) -> Result<(), NoMemory>
    ensures { IfOk result (λ _. page.new.items ≡ page.old.items ++ spec.escaped_text bytes.now) }
{
    for byte in bytes {
        put_escaped(page, *byte)?;
    }
    Ok(())
}

/// Puts bytes as a text that is shown.
pub fn put_shown(alloc: Global, page: &mut Vec<u8>, bytes: &[u8]) -> Result<(), NoMemory>
    ensures { IfOk result (λ _. page.new.items ≡ page.old.items ++ spec.escaped_text (utf8_lossy bytes.now)) }
{
    let shown = String::from_utf8_lossy(alloc, bytes)?;
    put_all_escaped(page, shown.as_bytes())
}

fn put_text(alloc: Global, page: &mut Vec<u8>, text: Text) -> Result<(), NoMemory>
    ensures { IfOk result (λ _. page.new.items ≡ page.old.items ++ spec.escaped_text (utf8_lossy (view_text text.entry))) }
{
    match text {
        Text::Bytes(bytes) => put_shown(alloc, page, bytes),
        Text::Number(number) => {
            let mut buffer = Buffer::new();
            put_shown(alloc, page, buffer.format(number).as_bytes())
        }
    }
}

/// Puts a tag and the text behind it.
#[tactic(auto, using(crate::proofs::Pieces::piece_put))]
pub fn put_piece(alloc: Global, page: &mut Vec<u8>, piece: Piece) -> Result<(), NoMemory>
    ensures { IfOk result (λ _. page.new.items ≡ page.old.items ++ spec.texts (view_piece piece.entry ∷ [])) }
{
    put(page, b"<")?;
    put(page, piece.0)?;
    put(page, b">")?;
    put_text(alloc, page, piece.1)
}

/// Puts these pieces.
pub fn put_pieces(alloc: Global, page: &mut Vec<u8>, pieces: &[Piece]) -> Result<(), NoMemory>
    ensures { IfOk result (λ _. page.new.items ≡ page.old.items ++ spec.texts (map view_piece pieces.now)) }
{
    for piece in pieces {
        put_piece(alloc, page, *piece)?;
    }
    Ok(())
}
