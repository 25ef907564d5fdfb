// What bodies read (ACSL 2.6.3).
ghost use Rattle.std.specs.Prelude.{◌≡◌};
ghost use Rattle.acsl_encode.specs.Told as told;
ghost use Rattle.acsl_trees.specs.Tree.{trees_of, view_trees};
ghost use Rattle.c_runs.specs.Truth.{heads_of};
ghost use Rattle.logic_trees.specs.Asking as spec;
ghost use Rattle.wp_base.specs.Blocks.{same_cell};

use crate::heads::{first_global, is_name};
use acsl_trees::{Content, Head, Tree};
use wp_base::CellKind;

/// What is asked of a body: whether it reads cells of a kind, or the variable of the file with a number.
#[derive(Clone, Copy)]
pub enum Asked {
    Cell(CellKind),
    Variable(u32),
}

#[tactic(auto, using(crate::proofs::Kids::is_same_cell, crate::proofs::Kids::other_cell))]
fn same_cell(left: CellKind, right: CellKind) -> bool
    ensures { result ≡ same_cell left right }
{
    left == right
}

fn is_cell_of(kind: CellKind, content: Content) -> bool
    ensures { result ≡ told.is_cell_of kind content }
{
    match content {
        Content::Integer(own) => same_cell(kind, CellKind::Of(own)),
        Content::Pointer => same_cell(kind, CellKind::Ptr),
        Content::Struct(_) => false,
    }
}

fn is_below(globals: usize, found: Option<u32>) -> bool
    ensures { result ≡ spec.is_below globals found }
{
    match found {
        Some(number) => (number as usize) < globals,
        None => false,
    }
}

// What is read is one of these.
fn reads_content(globals: usize, asked: Asked, content: Content, found: Option<u32>) -> bool
    ensures { result ≡ spec.reads_content globals asked content found }
{
    match asked {
        Asked::Cell(kind) => is_cell_of(kind, content) && !is_below(globals, found),
        Asked::Variable(number) => is_name(number as usize, found),
    }
}

fn is_told(calls: &[bool], function: u32) -> bool
    ensures { result ≡ spec.told_in calls.now function }
{
    let at = function as usize;
    if at < calls.len() { calls[at] } else { false }
}

fn call_in(head: Head) -> Option<u32>
    ensures { result ≡ spec.call_in head }
{
    match head {
        Head::Call(function) => Some(function),
        _ => None,
    }
}

fn content_in(head: Head) -> Option<Content>
    ensures { result ≡ spec.content_in head }
{
    match head {
        Head::Read { content, label: _ } => Some(content),
        _ => None,
    }
}

// A call of this function, or a reading of this content.
fn reads_by(
    globals: usize,
    asked: Asked,
    calls: &[bool],
    function: Option<u32>,
    content: Option<Content>,
    kids: &[Tree],
) -> bool
    ensures { result ≡ spec.reads_by globals asked (spec.told_in calls.now) function content (heads_of (trees_of (view_trees kids.now))) }
{
    match function {
        Some(function) => is_told(calls, function),
        None => match content {
            Some(content) => reads_content(globals, asked, content, first_global(kids)),
            None => false,
        },
    }
}

/// Whether a node reads it, or calls a function that does.
#[tactic(auto, using(crate::proofs::Kids::reads_node))]
pub(crate) fn node_reads(
    globals: usize,
    asked: Asked,
    calls: &[bool],
    head: Head,
    kids: &[Tree],
) -> bool
    ensures { result ≡ told.node_reads (spec.asks globals asked) (spec.told_in calls.now) head (heads_of (trees_of (view_trees kids.now))) }
{
    reads_by(globals, asked, calls, call_in(head), content_in(head), kids)
}
