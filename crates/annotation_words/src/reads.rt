// What variables and `\result` stand for, and what is read at an address (ACSL 2.3.1, 2.4.3).
ghost use Rattle.std.specs.Prelude.{◌≡◌, ℕ, IfOk};
ghost use Rattle.acsl_encode.specs.Encode as spec;
ghost use Rattle.acsl_trees.specs.declared.heads.Content.TheVariants as content;
ghost use Rattle.annotation_heads.specs.Pairs.{shape_in};
ghost use Rattle.annotation_heads.specs.View.{view_terms};
ghost use Rattle.annotation_words.specs.View.{view_result, view_seen};
ghost use Rattle.program_trees.specs.View.{view_facts};
ghost use Rattle.acsl_encode.specs.Readings as readings;
ghost use Rattle.wp_base.specs.declared.kinds.Kind as kinds;

use crate::readings::{Seen, SlotAt};
use crate::slots::{Held, is_known, slot_of, slot_term};
use acsl_trees::Content;
use annotation_heads::{Shape, Terms, shape_of};
use program_trees::Facts;
use std::alloc::Global;
use typed_prog::Variable;
use wp_base::NoMemory;

/// The address of a variable.
#[tactic(auto, using(crate::proofs::Slot_reads::reading_laws))]
pub fn variable(facts: &Facts, seen: Seen, number: Variable) -> Terms
    ensures { view_terms result ≡ spec.of_variable number ((view_seen (view_facts facts.now) seen.entry).variable number) }
{
    if is_known(facts, seen, number) {
        Terms::Variable(number)
    } else {
        Terms::Nothing
    }
}

/// `\result`, in a slot.
pub fn returned(alloc: Global, place: Option<SlotAt>) -> Result<Terms, NoMemory>
    ensures { IfOk result (λ terms. view_terms terms ≡ view_result place.entry) }
{
    match place {
        Some(slot) => {
            let term = slot_term(alloc, slot.slots, slot.at)?;
            Ok(Terms::Integer(slot.kind, term))
        }
        None => Ok(Terms::Nothing),
    }
}

// What a variable holds, as an integer.
#[tactic(auto, using(crate::proofs::Slot_reads::held_some, crate::proofs::Slot_reads::held_none))]
fn held(alloc: Global, facts: &Facts, seen: Seen, number: Variable) -> Result<Terms, NoMemory>
    ensures { (k : kinds.Kind) → IfOk result (λ terms. view_terms terms ≡ spec.held (content.Integer k) ((view_seen (view_facts facts.now) seen.entry).variable number)) }
{
    let Some(slot) = slot_of(alloc, facts, seen, number)? else {
        return Ok(Terms::Nothing);
    };
    let Held { kind, term } = slot;
    Ok(Terms::Integer(kind, term))
}

#[tactic(auto, using(crate::proofs::Slot_reads::read_laws))]
fn integer_read(alloc: Global, facts: &Facts, seen: Seen, from: Shape) -> Result<Terms, NoMemory>
    ensures { (k : kinds.Kind) (x : readings.Terms) → shape_in x ≡ from → IfOk result (λ terms. view_terms terms ≡ spec.read (content.Integer k) (view_seen (view_facts facts.now) seen.entry) x) }
{
    match from {
        Shape::Variable(number) => {
            let made = held(alloc, facts, seen, number)?;
            Ok(made)
        }
        Shape::Integer(_) => Ok(Terms::Nothing),
        Shape::Truth => Ok(Terms::Nothing),
        Shape::Address => Ok(Terms::Nothing),
        Shape::Other => Ok(Terms::Nothing),
    }
}

// A struct isn't a value: what is read is its address.
#[tactic(auto, using(crate::proofs::Slot_reads::struct_laws))]
fn struct_read(from: Terms) -> Terms
    ensures { (n : ℕ) (s : readings.Seen) → view_terms result ≡ spec.read (content.Struct n) s (view_terms from) }
{
    match from.into_pointer() {
        Some(pointer) => Terms::Address(pointer),
        None => Terms::Nothing,
    }
}

/// What stands at an address. There are no pointers in slots.
#[tactic(auto, using(crate::proofs::Slot_reads::no_pointers))]
pub fn read(
    alloc: Global,
    facts: &Facts,
    seen: Seen,
    content: Content,
    from: Terms,
) -> Result<Terms, NoMemory>
    ensures { IfOk result (λ terms. view_terms terms ≡ spec.read content (view_seen (view_facts facts.now) seen.entry) (view_terms from)) }
{
    match content {
        Content::Integer(_) => integer_read(alloc, facts, seen, shape_of(&from)),
        Content::Pointer => Ok(Terms::Nothing),
        Content::Struct(_) => Ok(struct_read(from)),
    }
}
