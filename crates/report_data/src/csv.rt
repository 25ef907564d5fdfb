// Comma-separated values: a row of names, and a row a goal.
ghost use Rattle.std.specs.Prelude.{◌≡◌, ◌++◌, IfOk, map};
ghost use Rattle.std.specs.List.{list_any};
ghost use Rattle.report_read.specs.Bytes.{joined};
ghost use Rattle.report_read.specs.View.{view_goal};
ghost use Rattle.report_data.specs.Csv as spec;
ghost use Rattle.report_data.specs.View.{view_cell};
ghost use Rattle.report_shown.specs.View.{view_goals};

use itoa::Buffer;
use report_read::{Goal, verdict_name};
use report_shown::put;
use std::alloc::Global;
use wp_base::NoMemory;

/// What stands in a column.
#[derive(Clone, Copy)]
enum Cell<'a> {
    Text(&'a [u8]),
    Number(u32),
}

// A quotation mark, a comma, or the end of a line.
fn is_special(byte: u8) -> bool
    ensures { result ≡ spec.is_special byte }
{
    byte == b'"' || byte == b',' || byte == b'\r' || byte == b'\n'
}

fn has_special(bytes: &[u8]) -> bool
    ensures { result ≡ list_any spec.is_special bytes.now }
{
    bytes.iter().any(|b| is_special(*b))
}

#[tactic(auto, unfolding(crate::specs::Csv::doubled))]
fn put_doubled(text: &mut Vec<u8>, byte: u8) -> Result<(), NoMemory>
    ensures { IfOk result (λ _. text.new.items ≡ text.old.items ++ spec.doubled byte) }
{
    if byte == b'"' {
        put(text, b"\"\"")
    } else {
        put(text, &[byte])
    }
}

#[tactic(auto, using(report_shown::proofs::Joined::joined_more_plain, report_shown::proofs::Joined::joined_end_plain))]
fn put_all_doubled(text: &mut Vec<u8>, bytes: &[u8]) -> Result<(), NoMemory>
    ensures { IfOk result (λ _. text.new.items ≡ text.old.items ++ joined (map spec.doubled bytes.now)) }
{
    for byte in bytes {
        put_doubled(text, *byte)?;
    }
    Ok(())
}

fn put_quoted(text: &mut Vec<u8>, bytes: &[u8]) -> Result<(), NoMemory>
    ensures { IfOk result (λ _. text.new.items ≡ text.old.items ++ spec.quoted bytes.now) }
{
    put(text, b"\"")?;
    put_all_doubled(text, bytes)?;
    put(text, b"\"")
}

#[tactic(auto, unfolding(crate::specs::Csv::field))]
fn put_field(text: &mut Vec<u8>, bytes: &[u8]) -> Result<(), NoMemory>
    ensures { IfOk result (λ _. text.new.items ≡ text.old.items ++ spec.field bytes.now) }
{
    if has_special(bytes) {
        put_quoted(text, bytes)
    } else {
        put(text, bytes)
    }
}

fn put_cell(text: &mut Vec<u8>, cell: Cell) -> Result<(), NoMemory>
    ensures { IfOk result (λ _. text.new.items ≡ text.old.items ++ spec.field (view_cell cell.entry)) }
{
    match cell {
        Cell::Text(bytes) => put_field(text, bytes),
        Cell::Number(number) => {
            let mut buffer = Buffer::new();
            put_field(text, buffer.format(number).as_bytes())
        }
    }
}

fn put_next_cell(text: &mut Vec<u8>, cell: Cell) -> Result<(), NoMemory>
    ensures { IfOk result (λ _. text.new.items ≡ text.old.items ++ spec.next_field (view_cell cell.entry)) }
{
    put(text, b",")?;
    put_cell(text, cell)
}

#[tactic(auto, using(report_shown::proofs::Joined::joined_more, report_shown::proofs::Joined::joined_end))]
fn put_next_cells(text: &mut Vec<u8>, cells: &[Cell]) -> Result<(), NoMemory>
    ensures { IfOk result (λ _. text.new.items ≡ text.old.items ++ joined (map spec.next_field (map view_cell cells.now))) }
{
    for cell in cells {
        put_next_cell(text, *cell)?;
    }
    Ok(())
}

fn put_cells(text: &mut Vec<u8>, cells: &[Cell]) -> Result<(), NoMemory>
    ensures { IfOk result (λ _. text.new.items ≡ text.old.items ++ spec.fields_text (map view_cell cells.now)) }
{
    if let Some((first, others)) = cells.split_first() {
        put_cell(text, *first)?;
        put_next_cells(text, others)?;
    }
    Ok(())
}

#[tactic(auto, unfolding(crate::specs::Csv::row_line))]
fn put_row(text: &mut Vec<u8>, cells: &[Cell]) -> Result<(), NoMemory>
    ensures { IfOk result (λ _. text.new.items ≡ text.old.items ++ spec.row_line (map view_cell cells.now)) }
{
    put_cells(text, cells)?;
    put(text, b"\r\n")
}

fn put_names(text: &mut Vec<u8>) -> Result<(), NoMemory>
    ensures { IfOk result (λ _. text.new.items ≡ text.old.items ++ spec.row_line spec.names) }
{
    let function = Cell::Text(b"function");
    let number = Cell::Text(b"number");
    let check = Cell::Text(b"check");
    let line = Cell::Text(b"line");
    let verdict = Cell::Text(b"verdict");
    let formula = Cell::Text(b"formula");
    put_row(text, &[function, number, check, line, verdict, formula])
}

fn put_goal(text: &mut Vec<u8>, goal: &Goal) -> Result<(), NoMemory>
    ensures { IfOk result (λ _. text.new.items ≡ text.old.items ++ spec.goal_row (view_goal goal.now)) }
{
    let function = Cell::Text(goal.function);
    let number = Cell::Number(goal.number);
    let check = Cell::Text(goal.check);
    let line = Cell::Number(goal.line);
    let verdict = Cell::Text(verdict_name(goal.verdict));
    let formula = Cell::Text(goal.formula.unwrap_or(b""));
    put_row(text, &[function, number, check, line, verdict, formula])
}

#[tactic(auto, using(report_shown::proofs::Joined::joined_more, report_shown::proofs::Joined::joined_end))]
fn put_goals(text: &mut Vec<u8>, goals: &[Goal]) -> Result<(), NoMemory>
    ensures { IfOk result (λ _. text.new.items ≡ text.old.items ++ joined (map spec.goal_row (view_goals goals.now))) }
{
    for goal in goals {
        put_goal(text, goal)?;
    }
    Ok(())
}

/// A row of names and a row a goal, each ended by CR LF.
#[tactic(auto, unfolding(crate::specs::Csv::csv_text))]
pub fn csv_text(alloc: Global, goals: &[Goal]) -> Result<Vec<u8>, NoMemory>
    ensures { IfOk result (λ text. text.items ≡ spec.csv_text (view_goals goals.now)) }
{
    let mut text = Vec::new(alloc);
    put_names(&mut text)?;
    put_goals(&mut text, goals)?;
    Ok(text)
}
