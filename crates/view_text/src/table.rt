// The table of the functions.
ghost use Rattle.std.specs.Prelude.{◌≡◌, ◌≤◌, ◌-◌, ◌++◌, IfOk, map, length};
ghost use Rattle.report_shown.specs.View.{view_goals, view_run};
ghost use Rattle.report_read.specs.Bytes.{joined};
ghost use Rattle.view_text.specs.Text as spec;

use crate::pieces::{MARGIN, put_padded};
use report_read::{Goal, proved_in};
use report_shown::{put, runs};
use std::alloc::Global;
use wp_base::NoMemory;

#[tactic(auto, using(crate::proofs::Putting::seven_put))]
fn put_row(text: &mut Vec<u8>, goals: usize, proved: usize, name: &[u8]) -> Result<(), NoMemory>
    requires { proved ≤ goals }
    ensures { IfOk result (λ _. text.new.items ≡ text.old.items ++ spec.row goals proved (goals - proved) name.now) }
{
    put(text, MARGIN)?;
    put_padded(text, 7, goals)?;
    put_padded(text, 8, proved)?;
    put_padded(text, 8, goals - proved)?;
    put(text, b" ")?;
    put(text, name)?;
    put(text, b"\n")
}

fn put_row_of(text: &mut Vec<u8>, name: &[u8], goals: &[Goal]) -> Result<(), NoMemory>
    ensures { IfOk result (λ _. text.new.items ≡ text.old.items ++ spec.row_of name.now (view_goals goals.now)) }
{
    put_row(text, goals.len(), proved_in(goals), name)
}

fn put_run(text: &mut Vec<u8>, goals: &[Goal]) -> Result<(), NoMemory>
    ensures { IfOk result (λ _. text.new.items ≡ text.old.items ++ spec.run_row (view_goals goals.now)) }
{
    match goals.split_first() {
        Some((first, _others)) => put_row_of(text, first.function, goals),
        None => Ok(()),
    }
}

#[tactic(auto, using(report_shown::proofs::Joined::joined_more, report_shown::proofs::Joined::joined_end))]
fn put_runs(text: &mut Vec<u8>, runs: &[&[Goal]]) -> Result<(), NoMemory>
    ensures { IfOk result (λ _. text.new.items ≡ text.old.items ++ joined (map spec.run_row (map view_run runs.now))) }
{
    for run in runs {
        put_run(text, *run)?;
    }
    Ok(())
}

/// Puts the table: a row a function, and all of them.
#[tactic(auto, using(crate::proofs::Rows::table_put))]
pub fn put_table(alloc: Global, text: &mut Vec<u8>, goals: &[Goal]) -> Result<(), NoMemory>
    ensures { IfOk result (λ _. text.new.items ≡ text.old.items ++ spec.table (view_goals goals.now)) }
{
    let runs = runs(alloc, goals)?;
    put(text, b"       |   goals  proved unknown function\n")?;
    put_runs(text, runs.as_slice())?;
    put_row_of(text, b"total", goals)
}
