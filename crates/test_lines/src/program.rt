// What the programs read and print.

use crate::Page;
use std::io::{ErrorKind, Write};
use std::{env, fs, io};
use wp_base::NoMemory;

fn first_word(rt: &HostRuntime) -> io::Result<String> {
    match env::args(rt)?.skip(1).next() {
        Some(word) => Ok(word),
        None => Err(ErrorKind::InvalidInput.into()),
    }
}

/// The text of the file that the first word names.
pub fn given_text(rt: &HostRuntime) -> io::Result<String> {
    let name = first_word(rt)?;
    fs::read_to_string(rt, name.as_str())
}

/// Prints what was written, where memory sufficed.
pub fn print_page(rt: &HostRuntime, page: Page) -> io::Result<()> {
    match page.into_text() {
        Ok(text) => io::writer(rt).write_all(text.as_slice()),
        Err(NoMemory) => Err(ErrorKind::OutOfMemory.into()),
    }
}
