// What the headings ask for.

use std::alloc::Global;
use test_lines::{Page, put_text};
use wp_base::{List, NoMemory, Str};

/// What is asked of the lines below a heading. A call that fails goes by its number, from 1; with 0 none fails.
#[derive(Clone, Copy)]
pub struct Setting<'a> {
    /// The words of the run.
    pub words: &'a str,
    /// How many bytes one read gives at most, and the call of the files that fails.
    pub piece: usize,
    pub fail: u64,
    /// How many bytes the sink takes by one write, and the call that fails.
    pub by: usize,
    pub stop: u64,
    /// How many bytes of what was written are printed.
    pub first: usize,
}

// What stands behind this key, up to a space; else this.
fn value_or<'a>(settings: &'a str, key: &str, other: &'a str) -> &'a str {
    match settings.split_once(key) {
        Some((_, rest)) => rest.split_once(" ").unwrap_or((rest, "")).0,
        None => other,
    }
}

fn number_or(settings: &str, key: &str, other: u32) -> u32 {
    value_or(settings, key, "").parse::<u32>().unwrap_or(other)
}

impl<'a> Setting<'a> {
    /// The heading of a line: keys and their values, and behind " :" the words of a run.
    pub fn of(line: &'a str) -> Setting<'a> {
        let (settings, words) = line.split_once(" :").unwrap_or((line, ""));
        Setting {
            words,
            piece: number_or(settings, " piece ", 4096) as usize,
            fail: number_or(settings, " fail ", 0) as u64,
            by: number_or(settings, " by ", 4096) as usize,
            stop: number_or(settings, " stop ", 0) as u64,
            first: number_or(settings, " first ", 100_000) as usize,
        }
    }
}

/// The text that a part of a line stands for.
pub fn text_of(alloc: Global, part: &str) -> Result<Vec<u8>, NoMemory> {
    let mut page = Page::new(alloc);
    put_text(&mut page, part);
    page.into_text()
}

/// The words of a run.
pub fn words_of(alloc: Global, line: &str) -> Result<List<Str>, NoMemory> {
    let mut words = List::new(alloc);
    for word in line.split_whitespace() {
        words.push(Str::from_bytes(alloc, word.as_bytes())?)?;
    }
    Ok(words)
}
