//! Floor 8, tests: terms, their stores and orders, and the texts of goals. For each line of the file that it is given it prints whether the text is
//! that of a goal, and then what it finds of terms and formulas.
#![tactic(auto)]

mod copies;
mod formulas;
mod orders;
mod sizes;
mod terms;

use crate::copies::tell_copies;
use crate::orders::{tell_formulas, tell_terms};
use crate::sizes::{tell_names, tell_sizes, tell_stores};
use goal_text::{GoalText, read_goal, write_goal};
use qed_terms::Goal;
use std::alloc::Global;
use std::io;
use test_lines::{Page, given_text, print_page};
use wp_base::NoMemory;

fn has_text(alloc: Global, goal: &Goal, text: &[u8]) -> Result<bool, NoMemory> {
    let written = write_goal(alloc, goal)?;
    Ok(written.bytes() == text)
}

// Whether the text is read as a goal that has this text.
fn is_goal_text(alloc: Global, text: &[u8]) -> Result<bool, NoMemory> {
    match read_goal(alloc, text) {
        Ok(goal) => has_text(alloc, &goal, text),
        Err(GoalText::NotAGoal) => Ok(false),
        Err(GoalText::NoMemory) => Err(NoMemory),
    }
}

fn tell_goals(alloc: Global, page: &mut Page, texts: &str) {
    for text in texts.lines() {
        page.put(text);
        match is_goal_text(alloc, text.as_bytes()) {
            Ok(true) => page.put("  => goal\n"),
            Ok(false) => page.put("  => no goal\n"),
            Err(NoMemory) => page.lack_memory(),
        }
    }
}

fn tell_all(alloc: Global, page: &mut Page) -> Result<(), NoMemory> {
    tell_terms(alloc, page)?;
    tell_formulas(alloc, page)?;
    tell_sizes(alloc, page)?;
    tell_names(alloc, page)?;
    tell_stores(alloc, page)?;
    tell_copies(alloc, page)
}

fn page_of(alloc: Global, texts: &str) -> Page {
    let mut page = Page::new(alloc);
    tell_goals(alloc, &mut page, texts);
    if tell_all(alloc, &mut page).is_err() {
        page.lack_memory();
    }
    page
}

fn main(rt: HostRuntime) -> io::Result<()> {
    let texts = given_text(&rt)?;
    print_page(&rt, page_of(rt.alloc(), texts.as_str()))
}
