// The text of a goal, put together in one pass.
ghost use Rattle.std.specs.Prelude.{◌≡◌, ◌≤◌, ◌∷◌, [], ◌++◌, true, length, map, take, drop, IfOk};
ghost use Rattle.std.specs.List.{list_all};
ghost use Rattle.qed_terms.specs.Nodes.{kids_of, node_tree};
ghost use Rattle.qed_terms.specs.View.{formula_tree};
ghost use Rattle.goal_words.specs.Kinds.{cell_text};
ghost use Rattle.goal_text.specs.Held as held;
ghost use Rattle.goal_text.specs.Text as spec;
ghost use Rattle.goal_text.specs.Views.{known_of, check_of};
ghost use Rattle.goal_text.specs.Writer.{Writes, WritesAll, WritesFrame, WritesRegion};

use crate::around::{Around, look};
use goal_words::{cell_text, flag_text, put, put_count, put_int, put_part};
use qed_terms::{Formula, Goal, Node, Shape};
use std::alloc::Global;
use wp_base::{CellKind, Layout, NoMemory, Str};

// The bracket that opens, and the word of a head.
fn put_open(text: &mut Vec<u8>, word: &[u8]) -> Result<(), NoMemory>
    ensures { IfOk result (λ _. text.new.items ≡ text.old.items ++ 40 ∷ word.now) }
{
    put(text, b"(")?;
    put(text, word)
}

fn put_close(text: &mut Vec<u8>) -> Result<(), NoMemory>
    ensures { IfOk result (λ _. text.new.items ≡ text.old.items ++ 41 ∷ []) }
{
    put(text, b")")
}

fn shape_word(shape: Shape) -> &'static [u8]
    ensures { result.now ≡ spec.shape_word shape }
{
    match shape {
        Shape::Cells => b"cells",
        Shape::New => b"new",
    }
}

// How many terms a region has.
fn shape_width(shape: Shape) -> usize
    ensures { result ≡ spec.shape_width shape }
{
    match shape {
        Shape::Cells => 3,
        Shape::New => 1,
    }
}

fn put_cells(text: &mut Vec<u8>, cells: &[CellKind]) -> Result<(), NoMemory>
    ensures { IfOk result (λ _. text.new.items ≡ text.old.items ++ spec.spaced (map cell_text cells.now)) }
{
    for cell in cells {
        put_part(text, cell_text(*cell))?;
    }
    Ok(())
}

#[tactic(auto, using(crate::proofs::Writing::layout_put))]
fn put_layout(text: &mut Vec<u8>, layout: &Layout) -> Result<(), NoMemory>
    ensures text { IfOk result (λ _. text.new.items ≡ text.old.items ++ 32 ∷ spec.layout_text layout.now) }
    ensures held { IfOk result (λ _. held.fits_32 layout.now ≡ true) }
{
    let count = layout.count;
    put(text, b" (lay")?;
    put_part(text, flag_text(layout.writable))?;
    put_count(text, count)?;
    put_cells(text, layout.cells.as_slice())?;
    put_close(text)?;
    Ok(())
}

#[cycle(writing)]
fn put_node(text: &mut Vec<u8>, node: Node<'_>) -> Result<(), NoMemory>
    ensures { IfOk result (λ _. Writes text.old.items text.new.items (node_tree node.entry)) }
{
    let count = node.kid_count();
    match look(node) {
        Around::Number(value) => {
            put_int(text, value)?;
            Ok(())
        }
        Around::Word(word) => {
            put(text, word)?;
            Ok(())
        }
        Around::Plain(word) => {
            put_open(text, word)?;
            put_kids(text, node, 0, count)?;
            put_close(text)?;
            Ok(())
        }
        Around::Named(word, name) => {
            put_open(text, word)?;
            put_part(text, name)?;
            put_kids(text, node, 0, count)?;
            put_close(text)?;
            Ok(())
        }
        Around::Laid(word, layout) => {
            put_open(text, word)?;
            put_kids(text, node, 0, count)?;
            put_layout(text, layout)?;
            put_close(text)?;
            Ok(())
        }
        Around::Frame(shapes) => {
            put_open(text, b"frame")?;
            put_frame(text, node, shapes)?;
            put_close(text)?;
            Ok(())
        }
    }
}

// The kids from a place up to below another, each behind a space.
#[cycle(writing)]
fn put_kids(text: &mut Vec<u8>, node: Node<'_>, from: usize, end: usize) -> Result<(), NoMemory>
    requires { end ≤ length (kids_of (node_tree node)) }
    ensures { IfOk result (λ _. WritesAll text.old.items text.new.items (drop from (take end (kids_of (node_tree node.entry))))) }
{
    for at in from..end {
        put(text, b" ")?;
        put_node(text, node.kid(at))?;
    }
    Ok(())
}

// A region: a bracket with its terms, which are the kids from a place up to below another.
#[cycle(writing)]
fn put_region(
    text: &mut Vec<u8>,
    node: Node<'_>,
    shape: Shape,
    from: usize,
    end: usize,
) -> Result<(), NoMemory>
    requires { end ≤ length (kids_of (node_tree node)) }
    ensures { IfOk result (λ _. WritesRegion text.old.items text.new.items shape (drop from (take end (kids_of (node_tree node.entry))))) }
{
    put(text, b" ")?;
    put_open(text, shape_word(shape))?;
    put_kids(text, node, from, end)?;
    put_close(text)?;
    Ok(())
}

// Two memories and the regions.
#[cycle(writing)]
fn put_frame(text: &mut Vec<u8>, node: Node<'_>, shapes: &[Shape]) -> Result<(), NoMemory>
    ensures { IfOk result (λ _. WritesFrame text.old.items text.new.items shapes.now (kids_of (node_tree node.entry))) }
{
    let count = node.kid_count();
    let mut at = count.min(2);
    put_kids(text, node, 0, at)?;
    for shape in shapes {
        let width = shape_width(*shape).min(count - at);
        let end = at + width;
        put_region(text, node, *shape, at, end)?;
        at = end;
    }
    put_kids(text, node, at, count)?;
    Ok(())
}

// Formulas, each behind a space.
fn put_formulas(text: &mut Vec<u8>, formulas: &[Formula]) -> Result<(), NoMemory>
    ensures { IfOk result (λ _. WritesAll text.old.items text.new.items (map formula_tree formulas.now)) }
{
    for formula in formulas {
        put(text, b" ")?;
        put_node(text, Node::Formula(formula))?;
    }
    Ok(())
}

/// The text of a goal, `(imp (and K1 .. Kn) C)`.
pub fn write_goal(alloc: Global, goal: &Goal) -> Result<Str, NoMemory>
    // The text is the one of the goal.
    ensures text { IfOk result (λ text. text ≡ spec.goal_text (known_of goal.now) (check_of goal.now)) }
    // Its numbers are such as a text of a goal may have.
    ensures held { IfOk result (λ _. held.goal_held (known_of goal.now) (check_of goal.now) ≡ true) }
{
    let mut text = Vec::new(alloc);
    put_open(&mut text, b"imp")?;
    put(&mut text, b" ")?;
    put_open(&mut text, b"and")?;
    put_formulas(&mut text, goal.known.as_slice())?;
    put_close(&mut text)?;
    put(&mut text, b" ")?;
    put_node(&mut text, Node::Formula(&goal.check))?;
    put_close(&mut text)?;
    Ok(Str::from_vec(text))
}
