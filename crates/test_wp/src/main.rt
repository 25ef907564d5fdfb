//! Floor 8, tests: runs of the top call, and what it reads and writes by. For each line of the file that it is given it prints what comes of the
//! text under the heading above it: the status, the calls that failed, and what was written. It reads that file and prints by the real files and
//! the real output, so these are tried too.
#![tactic(auto)]

mod parts;
mod real;
mod runs;
mod settings;

use crate::parts::{read_case, read_still, still_case, write_case};
use crate::real::real_case;
use crate::runs::{again_case, run_case, still_run};
use crate::settings::{Setting, text_of};
use std::alloc::Global;
use std::process::ExitCode;
use std::{env, str};
use test_lines::Page;
use wp_base::{NoMemory, Str};
use wp_io::{Files, RealFiles, RealSink, Sink, read_all, write_all};

/// The greatest length of the file of cases.
const MOST_BYTES: usize = 1_048_576;

fn answer(
    rt: HostRuntime,
    page: &mut Page,
    setting: &Setting<'_>,
    line: &str,
) -> Result<(), NoMemory> {
    let alloc = rt.alloc();
    let text = text_of(alloc, line)?;
    let text = text.as_slice();
    if setting.piece == 0 || setting.by == 0 {
        page.put(" no piece");
        return Ok(());
    }
    match setting.call {
        "run" => run_case(alloc, page, setting, text),
        "run-still" => still_run(alloc, page, setting, text),
        "again" => again_case(alloc, page, setting, text),
        "read" => read_case(alloc, page, setting, text),
        "read-still" => read_still(alloc, page, setting, text),
        "write" => write_case(alloc, page, setting, text),
        "still" => still_case(alloc, page, setting, text),
        "real" => real_case(rt, page, line),
        _ => {
            page.put(" no such call");
            Ok(())
        }
    }
}

fn page_of(rt: HostRuntime, cases: &str) -> Page {
    let mut page = Page::new(rt.alloc());
    let mut setting = Setting::of("");
    for line in cases.lines() {
        page.put(line);
        match line.strip_prefix("= ") {
            Some(words) => setting = Setting::of(words),
            None => {
                page.put("  =>");
                if answer(rt, &mut page, &setting, line).is_err() {
                    page.lack_memory();
                }
            }
        }
        page.put("\n");
    }
    page
}

fn first_word(rt: HostRuntime) -> Option<Str> {
    let word = env::args(&rt).ok()?.skip(1).next()?;
    Str::from_bytes(rt.alloc(), word.as_bytes()).ok()
}

// The bytes of the file that the first word names.
fn cases_of(rt: HostRuntime) -> Option<Vec<u8>> {
    let name = first_word(rt)?;
    let mut files = RealFiles::new(rt);
    match files.open(&name) {
        Ok(()) => read_all(rt.alloc(), &mut files, MOST_BYTES).ok(),
        Err(_) => None,
    }
}

fn answers_of(rt: HostRuntime) -> Option<Vec<u8>> {
    let cases = cases_of(rt)?;
    match str::from_utf8(cases.as_slice()) {
        Ok(cases) => page_of(rt, cases).into_text().ok(),
        Err(_) => None,
    }
}

// Writes the page, and then a line of one byte, which one call takes.
fn is_written(rt: HostRuntime, text: &[u8]) -> bool {
    let mut out = RealSink::new(rt);
    write_all(&mut out, text).is_ok() && out.write(b"\n") == Ok(1)
}

fn main(rt: HostRuntime) -> ExitCode {
    match answers_of(rt) {
        Some(text) if is_written(rt, text.as_slice()) => ExitCode::SUCCESS,
        _ => ExitCode::FAILURE,
    }
}
