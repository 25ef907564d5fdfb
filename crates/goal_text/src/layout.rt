// Brackets and layouts, read from a text.
ghost use Rattle.std.specs.Prelude.{◌≡◌, [], length};
ghost use Rattle.goal_words.specs.Bytes as front;
ghost use Rattle.goal_words.specs.Kinds.{cell_word};
ghost use Rattle.goal_text.specs.Reader as spec;
ghost use Rattle.goal_text.specs.Views.{Gives, GivesRest, same};

use crate::answer::GoalText;
use goal_words::{after_byte, cell_word, count_part, flag_part, word};
use std::alloc::Global;
use wp_base::{CellKind, Layout, List};

/// What comes after this byte, which has to stand here.
pub fn expect(byte: u8, bytes: &[u8]) -> Result<&[u8], GoalText>
    ensures { GivesRest result (front.expect byte bytes.now) }
{
    match after_byte(byte, bytes) {
        Some(rest) => Ok(rest),
        None => Err(GoalText::NotAGoal),
    }
}

/// What comes after a bracket that opens and this word, which have to stand here.
pub fn opened<'a>(name: &[u8], bytes: &'a [u8]) -> Result<&'a [u8], GoalText>
    ensures { GivesRest result (spec.opened name.now bytes.now) }
{
    let rest = expect(b'(', bytes)?;
    let (found, rest) = word(rest);
    if found == name {
        Ok(rest)
    } else {
        Err(GoalText::NotAGoal)
    }
}

// The kinds of cells, each behind a space.
#[tactic(auto, using(crate::proofs::Steps::repeat_stops, crate::proofs::Steps::repeat_over))]
fn cells<'a>(alloc: Global, bytes: &'a [u8]) -> Result<(List<CellKind>, &'a [u8]), GoalText>
    ensures { Gives same result (spec.repeat (spec.one_more cell_word) (length bytes.now) [] bytes.now) }
{
    let mut cells = List::new(alloc);
    let mut rest = bytes;
    for turn in 0..bytes.len() {
        let Some(after) = after_byte(b' ', rest) else {
            return Ok((cells, rest));
        };
        let Some((cell, after)) = cell_word(after) else {
            return Err(GoalText::NotAGoal);
        };
        cells.push(cell)?;
        rest = after;
    }
    Ok((cells, rest))
}

// What stands in a layout after its word, and the bracket that closes it.
fn layout_inside(alloc: Global, bytes: &[u8]) -> Result<(Layout, &[u8]), GoalText>
    ensures { Gives same result (spec.layout_inside bytes.now) }
{
    let Some((writable, rest)) = flag_part(bytes) else {
        return Err(GoalText::NotAGoal);
    };
    let Some((count, rest)) = count_part(rest) else {
        return Err(GoalText::NotAGoal);
    };
    let (cells, rest) = cells(alloc, rest)?;
    let rest = expect(b')', rest)?;
    Ok((
        Layout {
            count,
            cells,
            writable,
        },
        rest,
    ))
}

/// A space and a layout.
#[tactic(auto, unfolding(crate::specs::Reader::layout_part))]
pub fn layout_part(alloc: Global, bytes: &[u8]) -> Result<(Layout, &[u8]), GoalText>
    ensures { Gives same result (spec.layout_part bytes.now) }
{
    let rest = expect(b' ', bytes)?;
    let rest = opened(b"lay", rest)?;
    layout_inside(alloc, rest)
}
