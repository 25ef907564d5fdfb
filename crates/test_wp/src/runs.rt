// Runs of the top call.
ghost use Rattle.std.specs.Prelude.{◌<◌};

use crate::settings::{Setting, word_of, words_of};
use std::alloc::Global;
use test_lines::Page;
use wp_base::{List, NoMemory, Status, Str};
use wp_cli::wp_main;
use wp_io::{MemFiles, MemSink, StillFiles, StillSink};

fn one<T: Drop>(alloc: Global, item: T) -> Result<List<T>, NoMemory> {
    let mut list = List::new(alloc);
    list.push(item)?;
    Ok(list)
}

// One file with this text.
fn file_of(alloc: Global, setting: &Setting<'_>, text: &[u8]) -> Result<MemFiles, NoMemory>
    requires { 0 < setting.now.piece }
{
    let names = one(alloc, word_of(alloc, setting.file)?)?;
    let texts = one(alloc, Str::from_bytes(alloc, text)?)?;
    Ok(MemFiles::new(names, texts, setting.piece, one(alloc, setting.fail)?))
}

pub fn sink_of(alloc: Global, setting: &Setting<'_>) -> Result<MemSink, NoMemory>
    requires { 0 < setting.now.by }
{
    MemSink::new(alloc, setting.room, setting.by, one(alloc, setting.stop)?)
}

fn tell_whether(page: &mut Page, holds: bool) {
    page.put(if holds { " yes" } else { " no" });
}

// The status, how many calls failed, and whether there were any: of the files and of the sink; and what was written.
fn tell_run(page: &mut Page, status: Status, files: &MemFiles, out: &MemSink) {
    page.put(" ");
    page.put_number(status.code());
    page.put(", faults ");
    page.put_number(files.faults);
    page.put(" ");
    page.put_number(out.faults);
    page.put(", called");
    tell_whether(page, files.calls > 0);
    tell_whether(page, out.calls > 0);
    page.put(": ");
    page.put_in_line(out.taken.as_slice());
}

pub fn run_case(
    alloc: Global,
    page: &mut Page,
    setting: &Setting<'_>,
    text: &[u8],
) -> Result<(), NoMemory>
    requires piece { 0 < setting.now.piece }
    requires by { 0 < setting.now.by }
{
    let words = words_of(alloc, setting.words)?;
    let mut files = file_of(alloc, setting, text)?;
    let mut out = sink_of(alloc, setting)?;
    let status = wp_main(alloc, words.as_slice(), &mut files, &mut out);
    tell_run(page, status, &files, &out);
    Ok(())
}

pub fn still_run(
    alloc: Global,
    page: &mut Page,
    setting: &Setting<'_>,
    text: &[u8],
) -> Result<(), NoMemory> {
    let words = words_of(alloc, setting.words)?;
    let mut files = StillFiles::new(Str::from_bytes(alloc, text)?);
    let mut out = StillSink::new();
    let status = wp_main(alloc, words.as_slice(), &mut files, &mut out);
    page.put(" ");
    page.put_number(status.code());
    page.put(", bytes ");
    page.put_number(out.given);
    Ok(())
}

// A run over files and a sink that were used before.
fn again(
    alloc: Global,
    page: &mut Page,
    words: &List<Str>,
    files: &mut MemFiles,
    out: &mut MemSink,
) {
    let status = wp_main(alloc, words.as_slice(), files, out);
    tell_run(page, status, files, out);
}

/// A run without words, and three with them, over the same files and the same sink, and one more into another sink.
pub fn again_case(
    alloc: Global,
    page: &mut Page,
    setting: &Setting<'_>,
    text: &[u8],
) -> Result<(), NoMemory>
    requires piece { 0 < setting.now.piece }
    requires by { 0 < setting.now.by }
{
    let none = List::new(alloc);
    let words = words_of(alloc, setting.words)?;
    let mut files = file_of(alloc, setting, text)?;
    let mut out = sink_of(alloc, setting)?;
    let mut other = MemSink::new(alloc, setting.room, setting.by, List::new(alloc))?;
    again(alloc, page, &none, &mut files, &mut out);
    for _ in 0..3 {
        again(alloc, page, &words, &mut files, &mut out);
    }
    again(alloc, page, &words, &mut files, &mut other);
    Ok(())
}
