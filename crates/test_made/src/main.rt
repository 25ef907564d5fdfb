//! Floor 8, tests: core programs with checks. Each line of the file that it is given is the body of a function; it prints the line, and behind it
//! the statements of the core program with their checks.
#![tactic(auto)]

mod bodies;
mod programs;
mod shown;
mod values;

use programs::put_program;
use std::alloc::Global;
use std::io;
use test_lines::{Page, given_text, print_page};
use values::made_values;
use wp_base::NoMemory;

fn page_of(alloc: Global, texts: &str) -> Page {
    let mut page = Page::new(alloc);
    match made_values(alloc) {
        Ok(values) => {
            for text in texts.lines() {
                page.put(text);
                page.put("  =>");
                if put_program(alloc, &values, text.as_bytes(), &mut page).is_err() {
                    page.lack_memory();
                }
                page.put("\n");
            }
        }
        Err(NoMemory) => page.lack_memory(),
    }
    page
}

fn main(rt: HostRuntime) -> io::Result<()> {
    let texts = given_text(&rt)?;
    print_page(&rt, page_of(rt.alloc(), texts.as_str()))
}
