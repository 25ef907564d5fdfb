//! Floor 8, tests: runs of the top call of `wpview` over files and sinks in memory. For each line of the file that it is given it prints what comes of the
//! source and the report on it under the heading above: the status, the calls that failed, what is said, and what was written.
#![tactic(auto)]

mod runs;
mod settings;

use crate::runs::run_case;
use crate::settings::{Setting, text_of};
use std::alloc::Global;
use std::io;
use test_lines::{Page, given_text, print_page};
use wp_base::NoMemory;

// A source and a report, as they stand on a line.
fn answer(
    alloc: Global,
    page: &mut Page,
    setting: &Setting<'_>,
    line: &str,
) -> Result<(), NoMemory> {
    let (source, report) = line.split_once(" || ").unwrap_or((line, ""));
    let source = text_of(alloc, source)?;
    let report = text_of(alloc, report)?;
    if setting.piece == 0 || setting.by == 0 {
        page.put(" no piece");
        return Ok(());
    }
    run_case(alloc, page, setting, source.as_slice(), report.as_slice())
}

fn page_of(alloc: Global, cases: &str) -> Page {
    let mut page = Page::new(alloc);
    let mut setting = Setting::of("");
    for line in cases.lines() {
        page.put(line);
        match line.strip_prefix("= ") {
            Some(words) => setting = Setting::of(words),
            None => {
                page.put("  =>");
                if answer(alloc, &mut page, &setting, line).is_err() {
                    page.lack_memory();
                }
            }
        }
        page.put("\n");
    }
    page
}

fn main(rt: HostRuntime) -> io::Result<()> {
    let cases = given_text(&rt)?;
    print_page(&rt, page_of(rt.alloc(), cases.as_str()))
}
