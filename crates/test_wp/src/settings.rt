// What the headings ask for.

use std::alloc::Global;
use test_lines::{Page, put_text};
use wp_base::{List, NoMemory, Str};

/// What is asked of the texts below a heading. A call that fails goes by its number, from 1; with 0 none fails.
#[derive(Clone, Copy)]
pub struct Setting<'a> {
    pub call: &'a str,
    /// The words of a run.
    pub words: &'a str,
    /// The name of the file that has the text, and the one that is opened after it.
    pub file: &'a str,
    pub then: &'a str,
    /// How many bytes one read gives at most, and the call of the files that fails.
    pub piece: usize,
    pub fail: u64,
    /// The most bytes that are read.
    pub limit: usize,
    /// How many bytes the sink takes in all and by one write, and the call that fails.
    pub room: usize,
    pub by: usize,
    pub stop: u64,
}

// What stands behind this key, up to a space; else this.
fn value_or<'a>(settings: &'a str, key: &str, other: &'a str) -> &'a str {
    match settings.split_once(key) {
        Some((_, rest)) => rest.split_once(" ").unwrap_or((rest, "")).0,
        None => other,
    }
}

fn number_or(settings: &str, key: &str, other: u32) -> u32 {
    value_or(settings, key, "").parse::<u32>().unwrap_or(other)
}

impl<'a> Setting<'a> {
    /// The heading of a line: the call, keys and their values, and behind " :" the words of a run.
    pub fn of(line: &'a str) -> Setting<'a> {
        let (settings, words) = line.split_once(" :").unwrap_or((line, ""));
        Setting {
            call: settings.split_once(" ").unwrap_or((settings, "")).0,
            words,
            file: value_or(settings, " file ", "p.c"),
            then: value_or(settings, " then ", ""),
            piece: number_or(settings, " piece ", 4096) as usize,
            fail: number_or(settings, " fail ", 0) as u64,
            limit: number_or(settings, " limit ", 1000) as usize,
            room: number_or(settings, " room ", 4096) as usize,
            by: number_or(settings, " by ", 64) as usize,
            stop: number_or(settings, " stop ", 0) as u64,
        }
    }
}

/// The text that a line stands for.
pub fn text_of(alloc: Global, line: &str) -> Result<Vec<u8>, NoMemory> {
    let mut page = Page::new(alloc);
    put_text(&mut page, line);
    page.into_text()
}

// "∅" is the empty word, "¬" a byte that no text has, and "␀" the byte 0.
fn put_word(page: &mut Page, word: &str) {
    if let Some((before, after)) = word.split_once("¬") {
        page.put(before);
        page.put_bytes(b"\xff");
        page.put(after);
    } else if let Some((before, after)) = word.split_once("␀") {
        page.put(before);
        page.put_bytes(b"\0");
        page.put(after);
    } else if word != "∅" {
        page.put(word);
    }
}

/// A word of a heading.
pub fn word_of(alloc: Global, word: &str) -> Result<Str, NoMemory> {
    let mut page = Page::new(alloc);
    put_word(&mut page, word);
    let bytes = page.into_text()?;
    Ok(Str::from_bytes(alloc, bytes.as_slice())?)
}

/// The words of a run.
pub fn words_of(alloc: Global, line: &str) -> Result<List<Str>, NoMemory> {
    let mut words = List::new(alloc);
    for word in line.split_whitespace() {
        words.push(word_of(alloc, word)?)?;
    }
    Ok(words)
}
