// The table of functions.
ghost use Rattle.std.specs.Prelude.{◌≡◌, ◌++◌, IfOk, map};
ghost use Rattle.std.specs.List.{flat_map};
ghost use Rattle.report_page.specs.Markup.{texts};
ghost use Rattle.report_page.specs.Page as spec;
ghost use Rattle.report_shown.specs.View.{view_goals, view_run};

use crate::details::unknown_in;
use crate::markup::{NEWLINE, NOTHING, Text, put_piece, put_pieces};
use crate::tags::{link_tag, run_tag};
use report_read::{Goal, proved_in};
use report_shown::runs;
use std::alloc::Global;
use wp_base::NoMemory;

#[tactic(auto, unfolding(crate::specs::Page::count_cells))]
fn put_numbers(
    alloc: Global,
    page: &mut Vec<u8>,
    count: usize,
    proved: usize,
    unknown: usize,
) -> Result<(), NoMemory>
    ensures { IfOk result (λ _. page.new.items ≡ page.old.items ++ texts (spec.count_cells count proved unknown)) }
{
    put_pieces(
        alloc,
        page,
        &[
            (b"td", Text::Number(count as u64)),
            (b"td", Text::Number(proved as u64)),
            (b"td", Text::Number(unknown as u64)),
        ],
    )
}

fn put_counts(alloc: Global, page: &mut Vec<u8>, goals: &[Goal]) -> Result<(), NoMemory>
    ensures { IfOk result (λ _. page.new.items ≡ page.old.items ++ texts (spec.counts (view_goals goals.now))) }
{
    put_numbers(
        alloc,
        page,
        goals.len(),
        proved_in(goals),
        unknown_in(goals),
    )
}

// The name of a function, with a link to a line.
#[tactic(auto, unfolding(crate::specs::Page::link_pieces))]
fn put_link(alloc: Global, page: &mut Vec<u8>, line: u32, name: &[u8]) -> Result<(), NoMemory>
    ensures { IfOk result (λ _. page.new.items ≡ page.old.items ++ texts (spec.link_pieces line name.now)) }
{
    let tag = link_tag(alloc, line)?;
    put_piece(alloc, page, (b"td", NOTHING))?;
    put_piece(alloc, page, (tag.as_slice(), Text::Bytes(name)))?;
    put_piece(alloc, page, (b"/a", NOTHING))
}

#[tactic(auto, unfolding(crate::specs::Page::row_pieces))]
fn put_row(alloc: Global, page: &mut Vec<u8>, first: &Goal, goals: &[Goal]) -> Result<(), NoMemory>
    ensures { IfOk result (λ _. page.new.items ≡ page.old.items ++ texts (spec.row_pieces first.now.function.now first.now.line (view_goals goals.now))) }
{
    let tag = run_tag(alloc, first.function, goals)?;
    put_piece(alloc, page, (tag.as_slice(), NOTHING))?;
    put_link(alloc, page, first.line, first.function)?;
    put_counts(alloc, page, goals)?;
    put_piece(alloc, page, (b"/tr", NEWLINE))
}

fn put_run(alloc: Global, page: &mut Vec<u8>, run: &[Goal]) -> Result<(), NoMemory>
    ensures { IfOk result (λ _. page.new.items ≡ page.old.items ++ texts (spec.run_pieces (view_goals run.now))) }
{
    match run.first() {
        Some(first) => put_row(alloc, page, first, run),
        None => Ok(()),
    }
}

fn put_runs(alloc: Global, page: &mut Vec<u8>, runs: &[&[Goal]]) -> Result<(), NoMemory>
    ensures { IfOk result (λ _. page.new.items ≡ page.old.items ++ texts (flat_map spec.run_pieces (map view_run runs.now))) }
{
    for run in runs {
        put_run(alloc, page, *run)?;
    }
    Ok(())
}

#[tactic(auto, unfolding(crate::specs::Page::table_head))]
fn put_table_head(alloc: Global, page: &mut Vec<u8>) -> Result<(), NoMemory>
    ensures { IfOk result (λ _. page.new.items ≡ page.old.items ++ texts spec.table_head) }
{
    put_pieces(
        alloc,
        page,
        &[
            (b"table", NEWLINE),
            (b"tr", NOTHING),
            (b"th", Text::Bytes(b"function")),
            (b"th", Text::Bytes(b"goals")),
            (b"th", Text::Bytes(b"proved")),
            (b"th", Text::Bytes(b"unknown")),
            (b"/tr", NEWLINE),
        ],
    )
}

#[tactic(auto, unfolding(crate::specs::Page::total_pieces))]
fn put_total(alloc: Global, page: &mut Vec<u8>, goals: &[Goal]) -> Result<(), NoMemory>
    ensures { IfOk result (λ _. page.new.items ≡ page.old.items ++ texts (spec.total_pieces (view_goals goals.now))) }
{
    put_pieces(
        alloc,
        page,
        &[(b"tr", NOTHING), (b"th", Text::Bytes(b"all"))],
    )?;
    put_counts(alloc, page, goals)?;
    put_piece(alloc, page, (b"/table", NEWLINE))
}

/// Puts the table: a row a function, and one for all.
#[tactic(auto, unfolding(crate::specs::Page::table_pieces))]
pub fn put_table(alloc: Global, page: &mut Vec<u8>, goals: &[Goal]) -> Result<(), NoMemory>
    ensures { IfOk result (λ _. page.new.items ≡ page.old.items ++ texts (spec.table_pieces (view_goals goals.now))) }
{
    let runs = runs(alloc, goals)?;
    put_table_head(alloc, page)?;
    put_runs(alloc, page, runs.as_slice())?;
    put_total(alloc, page, goals)
}
