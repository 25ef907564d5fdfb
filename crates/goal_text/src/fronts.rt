// What stands in a bracket before the kids, and which kids are to come.
ghost use Rattle.std.specs.Prelude.{◌≡◌};
ghost use Rattle.qed_terms.specs.WellFormed.{form_places};
ghost use Rattle.qed_terms.specs.declared.head.FormOp.TheVariants as form;
ghost use Rattle.goal_words.specs.Bytes.{named_part};
ghost use Rattle.goal_words.specs.Kinds.{cell_of};
ghost use Rattle.goal_words.specs.Names.{name_part};
ghost use Rattle.goal_text.specs.Reader as spec;
ghost use Rattle.goal_text.specs.Views.{Gives, form_front_of, plan_of, same, term_front_of, term_place};

use crate::answer::GoalText;
use crate::leaves::{TermPlace, Wanted};
use crate::words::{FormWord, TermWord, form_word, term_word};
use goal_words::{cell_part, kind_part, name_part, word};
use qed_terms::{FormOp, Sort, TermOp};
use std::alloc::Global;
use wp_base::{CellKind, Str};

/// The head of a term in brackets; a layout comes after the kids.
#[derive(Drop)]
pub enum TermHead {
    Op(TermOp),
    Ite,
    App(Str),
    Alloc,
}

/// The head of a formula in brackets; a layout comes after the kids, the shapes of regions among them.
#[derive(Drop)]
pub enum FormHead {
    Rel(FormOp),
    Not,
    And,
    Or,
    Imp,
    Iff,
    Forall(Str),
    Exists(Str),
    Has,
    Frame,
}

/// Which kids a head has.
#[derive(Clone, Copy)]
pub enum Plan {
    /// One for each of these.
    Row(&'static [Wanted]),
    /// Any number.
    Any(Wanted),
    /// Two memories, and the terms of regions.
    Frame,
}

pub const INT: Wanted = Wanted::Term(TermPlace::Of(Sort::Int));

pub const MEMORY: Wanted = Wanted::Term(TermPlace::Of(Sort::Memory));

const TABLE: Wanted = Wanted::Term(TermPlace::Of(Sort::Table));

const ARGUMENT: Wanted = Wanted::Term(TermPlace::Argument);

const ONE_INT: Plan = Plan::Row(&[INT]);

const INTS: Plan = Plan::Row(&[INT, INT]);

const FORMULAS: Plan = Plan::Row(&[Wanted::Formula, Wanted::Formula]);

const CHOICE: Plan = Plan::Row(&[Wanted::Formula, INT, INT]);

const MEMORIES: Plan = Plan::Row(&[MEMORY, MEMORY]);

// A place in a memory, and the value that it gets.
const CELL: Plan = Plan::Row(&[MEMORY, INT, INT]);

const SET_CELL: Plan = Plan::Row(&[MEMORY, INT, INT, INT]);

// A table, a number of it, a place in it.
const ONE_TABLE: Plan = Plan::Row(&[TABLE]);

const BLOCK: Plan = Plan::Row(&[TABLE, INT]);

const ACCESS: Plan = Plan::Row(&[TABLE, INT, INT]);

// The bounds of a quantifier and its body.
const BOUND: Plan = Plan::Row(&[INT, INT, Wanted::Formula]);

// A space and a name.
fn name(alloc: Global, bytes: &[u8]) -> Result<(Str, &[u8]), GoalText>
    ensures { Gives same result (name_part bytes.now) }
{
    let Some((found, rest)) = name_part(bytes) else {
        return Err(GoalText::NotAGoal);
    };
    let name = Str::from_bytes(alloc, found)?;
    Ok((name, rest))
}

// A space and the kind of a cell.
fn cell(bytes: &[u8]) -> Result<(CellKind, &[u8]), GoalText>
    ensures { Gives same result (named_part cell_of bytes.now) }
{
    match cell_part(bytes) {
        Some((kind, rest)) => Ok((kind, rest)),
        None => Err(GoalText::NotAGoal),
    }
}

// A table and the memory of a kind, for pointers two.
fn memories(kind: CellKind) -> Plan
    ensures { plan_of result ≡ spec.row (form_places (form.WellFormed kind)) }
{
    match kind {
        CellKind::Of(_) => Plan::Row(&[TABLE, MEMORY]),
        CellKind::Ptr => Plan::Row(&[TABLE, MEMORY, MEMORY]),
    }
}

#[tactic(auto, unfolding(crate::specs::Reader::term_head))]
fn term_head(
    alloc: Global,
    word: TermWord,
    bytes: &[u8],
) -> Result<((TermHead, Plan), &[u8]), GoalText>
    ensures { Gives term_front_of result (spec.term_head word bytes.now) }
{
    match word {
        TermWord::Add => Ok(((TermHead::Op(TermOp::Add), Plan::Any(INT)), bytes)),
        TermWord::Sub => Ok(((TermHead::Op(TermOp::Sub), INTS), bytes)),
        TermWord::Mul => Ok(((TermHead::Op(TermOp::Mul), Plan::Any(INT)), bytes)),
        TermWord::Neg => Ok(((TermHead::Op(TermOp::Neg), ONE_INT), bytes)),
        TermWord::Div => Ok(((TermHead::Op(TermOp::Div), INTS), bytes)),
        TermWord::Mod => Ok(((TermHead::Op(TermOp::Mod), INTS), bytes)),
        TermWord::Wrap => {
            let Some((kind, rest)) = kind_part(bytes) else {
                return Err(GoalText::NotAGoal);
            };
            Ok(((TermHead::Op(TermOp::Wrap(kind)), ONE_INT), rest))
        }
        TermWord::ShiftLeft => Ok(((TermHead::Op(TermOp::ShiftLeft), INTS), bytes)),
        TermWord::ShiftRight => Ok(((TermHead::Op(TermOp::ShiftRight), INTS), bytes)),
        TermWord::BitAnd => Ok(((TermHead::Op(TermOp::BitAnd), INTS), bytes)),
        TermWord::BitOr => Ok(((TermHead::Op(TermOp::BitOr), INTS), bytes)),
        TermWord::BitXor => Ok(((TermHead::Op(TermOp::BitXor), INTS), bytes)),
        TermWord::BitNot => Ok(((TermHead::Op(TermOp::BitNot), ONE_INT), bytes)),
        TermWord::Ite => Ok(((TermHead::Ite, CHOICE), bytes)),
        TermWord::Load => Ok(((TermHead::Op(TermOp::Load), CELL), bytes)),
        TermWord::Count => Ok(((TermHead::Op(TermOp::Count), ONE_TABLE), bytes)),
        TermWord::Len => Ok(((TermHead::Op(TermOp::Len), BLOCK), bytes)),
        TermWord::App => {
            let (name, rest) = name(alloc, bytes)?;
            Ok(((TermHead::App(name), Plan::Any(ARGUMENT)), rest))
        }
        TermWord::Store => Ok(((TermHead::Op(TermOp::Store), SET_CELL), bytes)),
        TermWord::Alloc => Ok(((TermHead::Alloc, ONE_TABLE), bytes)),
        TermWord::Grow => Ok(((TermHead::Op(TermOp::Grow), BLOCK), bytes)),
    }
}

/// The head of a term that may stand at the place, what stands behind its word, and the kids that it wants.
#[tactic(auto, unfolding(crate::specs::Reader::term_front))]
pub fn term_front(
    alloc: Global,
    place: TermPlace,
    bytes: &[u8],
) -> Result<((TermHead, Plan), &[u8]), GoalText>
    ensures { Gives term_front_of result (spec.term_front (term_place place) bytes.now) }
{
    let (found, rest) = word(bytes);
    let Some(word) = term_word(found) else {
        return Err(GoalText::NotAGoal);
    };
    if !place.takes(word.sort()) {
        return Err(GoalText::NotAGoal);
    }
    term_head(alloc, word, rest)
}

#[tactic(auto, unfolding(crate::specs::Reader::form_head))]
fn form_head(
    alloc: Global,
    word: FormWord,
    bytes: &[u8],
) -> Result<((FormHead, Plan), &[u8]), GoalText>
    ensures { Gives form_front_of result (spec.form_head word bytes.now) }
{
    match word {
        FormWord::Equal => Ok(((FormHead::Rel(FormOp::Equal), INTS), bytes)),
        FormWord::AtMost => Ok(((FormHead::Rel(FormOp::AtMost), INTS), bytes)),
        FormWord::Less => Ok(((FormHead::Rel(FormOp::Less), INTS), bytes)),
        FormWord::Same => Ok(((FormHead::Rel(FormOp::Same), MEMORIES), bytes)),
        FormWord::Not => Ok(((FormHead::Not, Plan::Row(&[Wanted::Formula])), bytes)),
        FormWord::And => Ok(((FormHead::And, Plan::Any(Wanted::Formula)), bytes)),
        FormWord::Or => Ok(((FormHead::Or, Plan::Any(Wanted::Formula)), bytes)),
        FormWord::Imp => Ok(((FormHead::Imp, FORMULAS), bytes)),
        FormWord::Iff => Ok(((FormHead::Iff, FORMULAS), bytes)),
        FormWord::Forall => {
            let (name, rest) = name(alloc, bytes)?;
            Ok(((FormHead::Forall(name), BOUND), rest))
        }
        FormWord::Exists => {
            let (name, rest) = name(alloc, bytes)?;
            Ok(((FormHead::Exists(name), BOUND), rest))
        }
        FormWord::Read => {
            let (kind, rest) = cell(bytes)?;
            Ok(((FormHead::Rel(FormOp::Read(kind)), ACCESS), rest))
        }
        FormWord::Write => {
            let (kind, rest) = cell(bytes)?;
            Ok(((FormHead::Rel(FormOp::Write(kind)), ACCESS), rest))
        }
        FormWord::Live => Ok(((FormHead::Rel(FormOp::Live), BLOCK), bytes)),
        FormWord::Has => Ok(((FormHead::Has, BLOCK), bytes)),
        FormWord::WellFormed => {
            let (kind, rest) = cell(bytes)?;
            Ok((
                (FormHead::Rel(FormOp::WellFormed(kind)), memories(kind)),
                rest,
            ))
        }
        FormWord::Frame => Ok(((FormHead::Frame, Plan::Frame), bytes)),
    }
}

/// The head of a formula, what stands behind its word, and the kids that it wants.
#[tactic(auto, unfolding(crate::specs::Reader::form_front))]
pub fn form_front(alloc: Global, bytes: &[u8]) -> Result<((FormHead, Plan), &[u8]), GoalText>
    ensures { Gives form_front_of result (spec.form_front bytes.now) }
{
    let (found, rest) = word(bytes);
    match form_word(found) {
        Some(word) => form_head(alloc, word, rest),
        None => Err(GoalText::NotAGoal),
    }
}
