//! Floor 8, tests: normal forms. Each line of the file that it is given is the text of a goal; it prints the line, and behind it the text of the
//! goal that knows nothing and checks the normal form.
#![tactic(auto)]

use goal_text::{GoalText, read_goal, write_goal};
use qed_simplify::normal_plain;
use qed_terms::{Formula, Goal};
use std::alloc::Global;
use std::io;
use test_lines::{Page, given_text, print_page};
use wp_base::{List, NoMemory, Str};

fn normal_of(alloc: Global, goal: &Goal) -> Result<Formula, NoMemory> {
    let formula = goal.formula(alloc)?;
    normal_plain(alloc, &formula)
}

fn text_of(alloc: Global, check: Formula) -> Result<Str, NoMemory> {
    let goal = Goal {
        known: List::new(alloc),
        check,
    };
    write_goal(alloc, &goal)
}

fn normal_text(alloc: Global, goal: &Goal) -> Result<Str, NoMemory> {
    let check = normal_of(alloc, goal)?;
    text_of(alloc, check)
}

fn tell_normal(alloc: Global, page: &mut Page, goal: &Goal) {
    match normal_text(alloc, goal) {
        Ok(text) => page.put_bytes(text.bytes()),
        Err(NoMemory) => page.lack_memory(),
    }
}

fn page_of(alloc: Global, texts: &str) -> Page {
    let mut page = Page::new(alloc);
    for text in texts.lines() {
        page.put(text);
        page.put("  => ");
        match read_goal(alloc, text.as_bytes()) {
            Ok(goal) => tell_normal(alloc, &mut page, &goal),
            Err(GoalText::NotAGoal) => page.put("no goal"),
            Err(GoalText::NoMemory) => page.lack_memory(),
        }
        page.put("\n");
    }
    page
}

fn main(rt: HostRuntime) -> io::Result<()> {
    let texts = given_text(&rt)?;
    print_page(&rt, page_of(rt.alloc(), texts.as_str()))
}
