// Terms and formulas, read from a text by what is wanted at a place, and nothing read twice.
ghost use Rattle.std.specs.Prelude.{◌≡◌, length, map};
ghost use Rattle.qed_terms.specs.View.{term_tree, formula_tree};
ghost use Rattle.qed_terms.specs.WellFormed.{formula as a_formula};
ghost use Rattle.goal_text.specs.Reader as spec;
ghost use Rattle.goal_text.specs.Views.{Gives, Leaves, kids_view, place_of, plan_of, term_place};

use crate::answer::GoalText;
use crate::fronts::{INT, MEMORY, Plan, form_front, term_front};
use crate::kids::Kids;
use crate::layout::expect;
use crate::leaves::{TermPlace, Wanted, leaf, truth};
use crate::made::{form_end, term_end};
use crate::words::shape_of;
use goal_words::{after_byte, word};
use qed_terms::{Formula, Shape, Term};
use std::alloc::Global;

/// A term, where so many brackets may open.
#[cycle(reading)]
#[tactic(auto, using(crate::proofs::Steps::term_laws))]
pub fn term<'a>(
    alloc: Global,
    room: usize,
    place: TermPlace,
    bytes: &'a [u8],
) -> Result<(Term, &'a [u8]), GoalText>
    ensures { Gives term_tree result (spec.tree room (term_place place) bytes.now) }
{
    if room == 0 {
        return Err(GoalText::NotAGoal);
    }
    let Some(rest) = after_byte(b'(', bytes) else {
        return leaf(alloc, place, bytes);
    };
    let ((head, plan), rest) = term_front(alloc, place, rest)?;
    let mut kids = Kids::new(alloc);
    let rest = read_kids(alloc, room - 1, plan, &mut kids, rest)?;
    term_end(alloc, head, kids, rest)
}

/// A formula, where so many brackets may open.
#[cycle(reading)]
#[tactic(auto, using(crate::proofs::Steps::form_laws))]
pub fn formula<'a>(
    alloc: Global,
    room: usize,
    bytes: &'a [u8],
) -> Result<(Formula, &'a [u8]), GoalText>
    ensures { Gives formula_tree result (spec.tree room a_formula bytes.now) }
{
    if room == 0 {
        return Err(GoalText::NotAGoal);
    }
    let Some(rest) = after_byte(b'(', bytes) else {
        return truth(bytes);
    };
    let ((head, plan), rest) = form_front(alloc, rest)?;
    let mut kids = Kids::new(alloc);
    let rest = read_kids(alloc, room - 1, plan, &mut kids, rest)?;
    form_end(alloc, head, kids, rest)
}

// The kids of a plan, behind those that were read.
#[cycle(reading)]
#[tactic(auto, unfolding(crate::specs::Reader::kids_by))]
fn read_kids<'a>(
    alloc: Global,
    room: usize,
    plan: Plan,
    kids: &mut Kids,
    bytes: &'a [u8],
) -> Result<&'a [u8], GoalText>
    ensures { Leaves (kids_view kids.new) result (spec.kids_by (spec.tree room) (plan_of plan) (kids_view kids.old) bytes.now) }
{
    match plan {
        Plan::Row(places) => kids_at(alloc, room, places, kids, bytes),
        Plan::Any(place) => kids_any(alloc, room, place, kids, bytes),
        Plan::Frame => {
            let rest = kids_at(alloc, room, &[MEMORY, MEMORY], kids, bytes)?;
            regions(alloc, room, kids, rest)
        }
    }
}

// One kid, at the end of its list.
#[cycle(reading)]
#[tactic(auto, using(crate::proofs::Steps::with_terms_at))]
fn kid<'a>(
    alloc: Global,
    room: usize,
    place: Wanted,
    kids: &mut Kids,
    bytes: &'a [u8],
) -> Result<&'a [u8], GoalText>
    ensures { Leaves (kids_view kids.new) result (spec.kid (spec.tree room) (place_of place) (kids_view kids.old) bytes.now) }
{
    match place {
        Wanted::Term(place) => {
            let (term, rest) = term(alloc, room, place, bytes)?;
            kids.terms.push(term)?;
            Ok(rest)
        }
        Wanted::Formula => {
            let (formula, rest) = formula(alloc, room, bytes)?;
            kids.formulas.push(formula)?;
            Ok(rest)
        }
    }
}

// One kid for each place.
#[cycle(reading)]
#[tactic(auto, using(crate::proofs::Steps::kids_over, crate::proofs::Steps::kids_end, crate::proofs::Steps::kids_stop, crate::proofs::Steps::kids_turn))]
fn kids_at<'a>(
    alloc: Global,
    room: usize,
    places: &[Wanted],
    kids: &mut Kids,
    bytes: &'a [u8],
) -> Result<&'a [u8], GoalText>
    ensures { Leaves (kids_view kids.new) result (spec.kids_at (spec.tree room) (map place_of places.now) (kids_view kids.old) bytes.now) }
{
    let mut rest = bytes;
    for place in places {
        let after = expect(b' ', rest)?;
        rest = kid(alloc, room, *place, kids, after)?;
    }
    Ok(rest)
}

/// Any number of kids for one place.
#[cycle(reading)]
#[tactic(auto, using(crate::proofs::Steps::repeat_stops, crate::proofs::Steps::repeat_over, crate::proofs::Steps::repeat_ends), unfolding(crate::specs::Reader::kids_any))]
pub fn kids_any<'a>(
    alloc: Global,
    room: usize,
    place: Wanted,
    kids: &mut Kids,
    bytes: &'a [u8],
) -> Result<&'a [u8], GoalText>
    ensures { Leaves (kids_view kids.new) result (spec.kids_any (spec.tree room) (place_of place) (kids_view kids.old) bytes.now) }
{
    let mut rest = bytes;
    for turn in 0..bytes.len() {
        let Some(after) = after_byte(b' ', rest) else {
            return Ok(rest);
        };
        rest = kid(alloc, room, place, kids, after)?;
    }
    Ok(rest)
}

// As many regions as there are.
#[cycle(reading)]
#[tactic(auto, using(crate::proofs::Steps::repeat_stops, crate::proofs::Steps::repeat_over, crate::proofs::Steps::repeat_ends))]
fn regions<'a>(
    alloc: Global,
    room: usize,
    kids: &mut Kids,
    bytes: &'a [u8],
) -> Result<&'a [u8], GoalText>
    ensures { Leaves (kids_view kids.new) result (spec.repeat (spec.region (spec.tree room)) (length bytes.now) (kids_view kids.old) bytes.now) }
{
    let mut rest = bytes;
    for turn in 0..bytes.len() {
        let Some(after) = after_byte(b' ', rest) else {
            return Ok(rest);
        };
        rest = region(alloc, room, kids, after)?;
    }
    Ok(rest)
}

fn wanted_in(shape: Shape) -> &'static [Wanted]
    ensures { map place_of result.now ≡ spec.shape_places shape }
{
    match shape {
        Shape::Cells => &[INT, INT, INT],
        Shape::New => &[INT],
    }
}

// A region: its shape, and its terms behind the others.
#[cycle(reading)]
#[tactic(auto, unfolding(crate::specs::Reader::region))]
fn region<'a>(
    alloc: Global,
    room: usize,
    kids: &mut Kids,
    bytes: &'a [u8],
) -> Result<&'a [u8], GoalText>
    ensures { Leaves (kids_view kids.new) result (spec.region (spec.tree room) (kids_view kids.old) bytes.now) }
{
    let rest = expect(b'(', bytes)?;
    let (found, rest) = word(rest);
    let Some(shape) = shape_of(found) else {
        return Err(GoalText::NotAGoal);
    };
    let rest = kids_at(alloc, room, wanted_in(shape), kids, rest)?;
    let rest = expect(b')', rest)?;
    kids.shapes.push(shape)?;
    Ok(rest)
}
