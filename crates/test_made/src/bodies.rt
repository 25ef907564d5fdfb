// Bodies as they are written: `E` and an expression; `[` statements `]`; `I`, a condition and two statements; `L`, a test before, a step, a test behind and a
// body; `S`, an expression and `[` statements `]`; `K` and a digit; `D`, `B`, `C`; `R` and an expression. A dot is no expression.
use crate::values::Values;
use core_trees::Loop;
use program_trees::{Stmt, Turns};
use std::alloc::Global;
use wp_base::{Boxed, List, NoMemory};

/// What is left to read.
#[derive(Drop)]
pub(crate) struct Left<'t> {
    rest: &'t [u8],
}

impl<'t> Left<'t> {
    pub(crate) fn new(rest: &'t [u8]) -> Left<'t> {
        Left { rest }
    }

    fn is_closed(&self) -> bool {
        match self.rest.first() {
            None => true,
            Some(letter) => *letter == b']',
        }
    }

    // The next letter; a dot at the end.
    fn next(&mut self) -> u8 {
        match self.rest.split_first() {
            None => b'.',
            Some((letter, rest)) => {
                self.rest = rest;
                *letter
            }
        }
    }
}

fn no_claims(alloc: Global) -> Loop {
    Loop {
        invariants: List::new(alloc),
        assigns: None,
        line: 0,
        variant: None,
        declared: 0,
    }
}

fn evaluated<'a>(values: &'a Values, letter: u8) -> Stmt<'a> {
    match values.at(letter) {
        Some(value) => Stmt::Evaluate(value),
        None => Stmt::Return(None),
    }
}

// The statement that begins with a letter that has no statement in it.
fn leaf<'a>(letter: u8, values: &'a Values, left: &mut Left<'_>) -> Stmt<'a> {
    match letter {
        b'E' => evaluated(values, left.next()),
        b'K' => Stmt::Case(i128::from(left.next()) - 48),
        b'D' => Stmt::Default,
        b'B' => Stmt::Break,
        b'C' => Stmt::Continue,
        _ => Stmt::Return(values.at(left.next())),
    }
}

fn turns_at<'a>(values: &'a Values, left: &mut Left<'_>) -> Turns<'a> {
    let before = values.at(left.next());
    let step = values.at(left.next());
    let behind = values.at(left.next());
    Turns {
        before,
        step,
        behind,
    }
}

#[cycle(reading)]
fn boxed<'a>(
    alloc: Global,
    turns: u32,
    values: &'a Values,
    left: &mut Left<'_>,
) -> Result<Boxed<Stmt<'a>>, NoMemory> {
    let stmt = stmt_at(alloc, turns, values, left)?;
    Boxed::new(alloc, stmt)
}

#[cycle(reading)]
fn choice<'a>(
    alloc: Global,
    turns: u32,
    values: &'a Values,
    left: &mut Left<'_>,
) -> Result<Stmt<'a>, NoMemory> {
    let test = left.next();
    let first = boxed(alloc, turns, values, left)?;
    let second = boxed(alloc, turns, values, left)?;
    Ok(Stmt::Choose(values.at(test).unwrap_or(&values.one), first, second))
}

// A statement, which stands in at most so many others.
#[cycle(reading)]
fn stmt_at<'a>(
    alloc: Global,
    turns: u32,
    values: &'a Values,
    left: &mut Left<'_>,
) -> Result<Stmt<'a>, NoMemory> {
    if turns == 0 {
        return Err(NoMemory);
    }
    match left.next() {
        b'[' => {
            let body = stmts_at(alloc, turns - 1, values, left)?;
            Ok(Stmt::Block(List::new(alloc), body))
        }
        b'I' => choice(alloc, turns - 1, values, left),
        b'L' => {
            let around = turns_at(values, left);
            let body = boxed(alloc, turns - 1, values, left)?;
            Ok(Stmt::Loop(no_claims(alloc), around, body))
        }
        b'S' => {
            let value = left.next();
            left.next();
            let body = stmts_at(alloc, turns - 1, values, left)?;
            Ok(Stmt::Switch(values.at(value).unwrap_or(&values.one), body))
        }
        letter => Ok(leaf(letter, values, left)),
    }
}

/// Statements up to a bracket that closes, or to the end.
#[cycle(reading)]
pub(crate) fn stmts_at<'a>(
    alloc: Global,
    turns: u32,
    values: &'a Values,
    left: &mut Left<'_>,
) -> Result<List<Stmt<'a>>, NoMemory> {
    let mut stmts = List::new(alloc);
    if turns == 0 {
        return Err(NoMemory);
    }
    for _ in 0..100 {
        if left.is_closed() {
            break;
        }
        stmts.push(stmt_at(alloc, turns - 1, values, left)?)?;
    }
    left.next();
    Ok(stmts)
}
