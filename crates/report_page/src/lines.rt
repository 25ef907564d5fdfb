// The lines of the source, each with its goals below it.
ghost use Rattle.std.specs.Prelude.{◌≡◌, ◌++◌, ◌+◌, ◌<◌, ◌^◌, IfOk, drop, map};
ghost use Rattle.report_read.specs.View.{bytes_of};
ghost use Rattle.report_page.specs.Markup.{texts};
ghost use Rattle.report_page.specs.Page as spec;
ghost use Rattle.report_shown.specs.Source.{first_list};
ghost use Rattle.report_shown.specs.View.{view_goals, view_list};

use crate::details::put_folded;
use crate::markup::{NEWLINE, NOTHING, Text, put_piece, put_pieces};
use crate::tags::line_tag;
use report_read::Goal;
use report_shown::by_line;
use std::alloc::Global;
use wp_base::NoMemory;

#[tactic(auto, unfolding(crate::specs::Page::line_cells))]
fn put_cells(alloc: Global, page: &mut Vec<u8>, number: u64, line: &[u8]) -> Result<(), NoMemory>
    ensures { IfOk result (λ _. page.new.items ≡ page.old.items ++ texts (spec.line_cells number line.now)) }
{
    put_pieces(
        alloc,
        page,
        &[
            (b"span", Text::Number(number)),
            (b"/span", NOTHING),
            (b"code", Text::Bytes(line)),
            (b"/code", NOTHING),
            (b"/div", NEWLINE),
        ],
    )
}

#[tactic(auto, unfolding(crate::specs::Page::line_pieces))]
fn put_line(
    alloc: Global,
    page: &mut Vec<u8>,
    number: u64,
    line: &[u8],
    goals: &[Goal],
) -> Result<(), NoMemory>
    ensures { IfOk result (λ _. page.new.items ≡ page.old.items ++ texts (spec.line_pieces number line.now (view_goals goals.now))) }
{
    let tag = line_tag(alloc, number, goals)?;
    put_piece(alloc, page, (tag.as_slice(), NOTHING))?;
    put_cells(alloc, page, number, line)?;
    put_folded(alloc, page, goals)
}

// A line with the goals that its list has.
#[tactic(auto, using(report_shown::proofs::Lists::some_goals, report_shown::proofs::Lists::no_goals))]
fn put_line_at(
    alloc: Global,
    page: &mut Vec<u8>,
    index: usize,
    line: &[u8],
    lists: &[Vec<Goal>],
) -> Result<(), NoMemory>
    requires { index + 1 < 2 ^ 64 }
    ensures { IfOk result (λ _. page.new.items ≡ page.old.items ++ texts (spec.line_pieces (index + 1) line.now (first_list (map view_list (drop index lists.now))))) }
{
    match lists.get(index) {
        Some(goals) => put_line(alloc, page, index as u64 + 1, line, goals.as_slice()),
        None => put_line(alloc, page, index as u64 + 1, line, &[]),
    }
}

fn put_lines(
    alloc: Global,
    page: &mut Vec<u8>,
    lines: &[&[u8]],
    lists: &[Vec<Goal>],
) -> Result<(), NoMemory>
    ensures { IfOk result (λ _. page.new.items ≡ page.old.items ++ texts (spec.lines_pieces 1 (map bytes_of lines.now) (map view_list lists.now))) }
{
    for index in 0..lines.len() {
        put_line_at(alloc, page, index, lines[index], lists)?;
    }
    Ok(())
}

/// Puts the lines of the source, and the goals of each below it.
pub fn put_source(
    alloc: Global,
    page: &mut Vec<u8>,
    lines: &[&[u8]],
    goals: &[Goal],
) -> Result<(), NoMemory>
    ensures { IfOk result (λ _. page.new.items ≡ page.old.items ++ texts (spec.source_pieces (map bytes_of lines.now) (view_goals goals.now))) }
{
    let lists = by_line(alloc, lines.len(), goals)?;
    put_lines(alloc, page, lines, lists.as_slice())
}
