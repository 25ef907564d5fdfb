// The files and the sinks in memory, read and written by themselves.
ghost use Rattle.std.specs.Prelude.{◌<◌};

use crate::runs::sink_of;
use crate::settings::{Setting, word_of};
use std::alloc::Global;
use test_lines::Page;
use wp_base::{List, NoMemory, Str};
use wp_io::{Files, MemFiles, ReadEnd, StillFiles, StillSink, read_all, write_all};

fn texts_of(alloc: Global, texts: [&[u8]; 3]) -> Result<List<Str>, NoMemory> {
    let mut list = List::new(alloc);
    for text in texts {
        list.push(Str::from_bytes(alloc, text)?)?;
    }
    Ok(list)
}

// The text stands under `b`, and the first of the two that stand under `a` is `first`.
fn three_files(alloc: Global, setting: &Setting<'_>, text: &[u8]) -> Result<MemFiles, NoMemory>
    requires { 0 < setting.now.piece }
{
    let names = texts_of(alloc, [b"a", b"b", b"a"])?;
    let texts = texts_of(alloc, [b"first", text, b"second"])?;
    let mut fail = List::new(alloc);
    fail.push(setting.fail)?;
    Ok(MemFiles::new(names, texts, setting.piece, fail))
}

pub fn tell_read(page: &mut Page, answer: Result<Vec<u8>, ReadEnd>) {
    match answer {
        Ok(text) => {
            page.put(" read: ");
            page.put_in_line(text.as_slice());
        }
        Err(ReadEnd::ReadFault) => page.put(" cannot read"),
        Err(ReadEnd::TooLong) => page.put(" too long"),
        Err(ReadEnd::NoMemory) => page.lack_memory(),
    }
}

fn tell_calls(page: &mut Page, calls: u64, faults: u64) {
    page.put(" calls ");
    page.put_number(calls);
    page.put(" faults ");
    page.put_number(faults);
}

/// Opens one name, then perhaps another, and reads up to the limit.
pub fn read_case(
    alloc: Global,
    page: &mut Page,
    setting: &Setting<'_>,
    text: &[u8],
) -> Result<(), NoMemory>
    requires { 0 < setting.now.piece }
{
    let name = word_of(alloc, setting.file)?;
    let then = word_of(alloc, setting.then)?;
    let mut files = three_files(alloc, setting, text)?;
    if files.open(&name).is_err() || !setting.then.is_empty() && files.open(&then).is_err() {
        page.put(" cannot open");
    } else {
        tell_read(page, read_all(alloc, &mut files, setting.limit));
    }
    tell_calls(page, files.calls, files.faults);
    Ok(())
}

/// Reads files that never fail, up to the limit.
pub fn read_still(
    alloc: Global,
    page: &mut Page,
    setting: &Setting<'_>,
    text: &[u8],
) -> Result<(), NoMemory> {
    let name = word_of(alloc, setting.file)?;
    let mut files = StillFiles::new(Str::from_bytes(alloc, text)?);
    if files.open(&name).is_ok() {
        tell_read(page, read_all(alloc, &mut files, setting.limit));
    }
    Ok(())
}

pub fn write_case(
    alloc: Global,
    page: &mut Page,
    setting: &Setting<'_>,
    text: &[u8],
) -> Result<(), NoMemory>
    requires { 0 < setting.now.by }
{
    let mut out = sink_of(alloc, setting)?;
    if write_all(&mut out, text).is_err() {
        page.put(" cannot write");
    }
    tell_calls(page, out.calls, out.faults);
    page.put(" taken: ");
    page.put_in_line(out.taken.as_slice());
    Ok(())
}

/// Reads two names of files that never fail, writes what was read to a sink that never fails, and then to one that was given almost all
/// that it counts.
pub fn still_case(
    alloc: Global,
    page: &mut Page,
    setting: &Setting<'_>,
    text: &[u8],
) -> Result<(), NoMemory> {
    let mut files = StillFiles::new(Str::from_bytes(alloc, text)?);
    let mut out = StillSink::new();
    let mut full = StillSink {
        given: u64::MAX - 1,
    };
    for name in [setting.file, setting.then] {
        let name = word_of(alloc, name)?;
        if files.open(&name).is_ok() {
            if let Ok(read) = read_all(alloc, &mut files, setting.limit) {
                page.put_in_line(read.as_slice());
                let _ = write_all(&mut out, read.as_slice());
            }
        }
    }
    let _ = write_all(&mut full, text);
    page.put(" bytes ");
    page.put_number(out.given);
    page.put(" and ");
    page.put_number(full.given);
    Ok(())
}
