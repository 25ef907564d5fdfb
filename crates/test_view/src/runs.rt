// Runs of the top call.
ghost use Rattle.std.specs.Prelude.{◌<◌};

use crate::settings::{Setting, words_of};
use report_view::{Ended, view_main};
use std::alloc::Global;
use test_lines::Page;
use wp_base::{List, NoMemory, Str};
use wp_io::{MemFiles, MemSink};

// How many bytes the sink takes.
const ROOM: usize = 1_000_000;

fn one<T: Drop>(alloc: Global, item: T) -> Result<List<T>, NoMemory> {
    let mut list = List::new(alloc);
    list.push(item)?;
    Ok(list)
}

fn both(alloc: Global, first: &[u8], second: &[u8]) -> Result<List<Str>, NoMemory> {
    let mut list = List::new(alloc);
    list.push(Str::from_bytes(alloc, first)?)?;
    list.push(Str::from_bytes(alloc, second)?)?;
    Ok(list)
}

// The source is `s.c`, its report `r`.
fn files_of(
    alloc: Global,
    setting: &Setting<'_>,
    source: &[u8],
    report: &[u8],
) -> Result<MemFiles, NoMemory>
    requires { 0 < setting.now.piece }
{
    let names = both(alloc, b"s.c", b"r")?;
    let texts = both(alloc, source, report)?;
    Ok(MemFiles::new(names, texts, setting.piece, one(alloc, setting.fail)?))
}

// Bytes on one line.
fn put_shown(page: &mut Page, bytes: &[u8]) {
    for byte in bytes {
        match *byte {
            b'\r' => page.put("<CR>"),
            27 => page.put("<ESC>"),
            other => page.put_in_line(&[other]),
        }
    }
}

fn tell_run(page: &mut Page, ended: &Ended, files: &MemFiles, out: &MemSink, first: usize) {
    page.put(" ");
    page.put_number(ended.status.code());
    page.put(", faults ");
    page.put_number(files.faults);
    page.put(" ");
    page.put_number(out.faults);
    page.put(", said ");
    put_shown(page, ended.said.bytes());
    page.put(": ");
    let taken = out.taken.as_slice();
    put_shown(page, taken.get(..first).unwrap_or(taken));
}

/// A run on one source and one report.
pub fn run_case(
    alloc: Global,
    page: &mut Page,
    setting: &Setting<'_>,
    source: &[u8],
    report: &[u8],
) -> Result<(), NoMemory>
    requires piece { 0 < setting.now.piece }
    requires by { 0 < setting.now.by }
{
    let words = words_of(alloc, setting.words)?;
    let mut files = files_of(alloc, setting, source, report)?;
    let mut out = MemSink::new(alloc, ROOM, setting.by, one(alloc, setting.stop)?)?;
    let ended = view_main(alloc, words.as_slice(), &mut files, &mut out);
    tell_run(page, &ended, &files, &out, setting.first);
    Ok(())
}
