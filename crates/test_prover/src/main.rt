//! Floor 8, tests: what closes a branch, against a plain slow check on random inputs, and what the changes make of branches. Each line of the file
//! that it is given is a kind of inputs and how many of them are tried, or a branch as the text of a goal.
#![tactic(auto)]

mod changes;
mod closed;
mod closing;
mod dice;
mod forms;
mod links;
mod random;
mod refuted;
mod same;
mod slow;
mod stored;
mod trees;

use changes::put_changed;
use closed::try_branches;
use links::try_links;
use std::alloc::Global;
use std::io;
use test_lines::{Page, given_text, print_page};

fn page_of(alloc: Global, texts: &str) -> Page {
    let mut page = Page::new(alloc);
    for text in texts.lines() {
        let tried = match text.split_once(" ") {
            Some(("links", count)) => try_links(
                alloc,
                &mut page,
                count.parse::<u32>().unwrap_or(0),
            ),
            Some(("branches", count)) => try_branches(
                alloc,
                &mut page,
                count.parse::<u32>().unwrap_or(0),
            ),
            _ => put_changed(alloc, &mut page, text),
        };
        if tried.is_err() {
            page.lack_memory();
        }
    }
    page
}

fn main(rt: HostRuntime) -> io::Result<()> {
    let texts = given_text(&rt)?;
    print_page(&rt, page_of(rt.alloc(), texts.as_str()))
}
