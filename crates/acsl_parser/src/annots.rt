// What stands inside annotations (ACSL 2.3 to 2.6).
ghost use Rattle.std.specs.Prelude.{◌≡◌, IfOk, map};
ghost use Rattle.c_syntax.specs.View.{view_behavior, view_contract, view_loop};
ghost use Rattle.c_grammar.specs.Views.{Gives};
ghost use Rattle.acsl_parser.specs.Read as spec;
ghost use Rattle.parse_clauses.specs.Sorts.{contract_made, loop_made};
ghost use Rattle.parse_clauses.specs.Views.{view_sorted};
ghost use Rattle.acsl_parser.specs.Views.{view_assert, view_ending};

use crate::behaviors::behaviors_at;
use crate::clauses::pred_ended;
use crate::endings::{Ending, endings_at, split_endings};
use crate::part::part_at;
use c_grammar::{DEEPEST, Fault, Read, TypeNames, keyword_at};
use c_syntax::{Behavior, Contract, LoopAnnot, Pred, Token};
use parse_clauses::{Part, Sorted, first_assigns, first_measure};
use std::alloc::Global;
use wp_base::{Line, List, NoMemory};

fn loop_of(alloc: Global, sorted: Sorted) -> LoopAnnot
    ensures { view_loop result ≡ loop_made (view_sorted sorted) }
{
    LoopAnnot {
        invariants: sorted.invariants,
        assigns: first_assigns(alloc, sorted.assigns),
        variant: first_measure(sorted.variants),
    }
}

/// The annotation of a loop. `end` is the number of all tokens of the text.
#[tactic(auto, unfolding(crate::specs::Read::loop_at))]
pub fn loop_at<'a>(
    alloc: Global,
    types: &TypeNames,
    room: u32,
    end: usize,
    tokens: &'a [Token],
) -> Read<'a, LoopAnnot>
    ensures { Gives view_loop result (spec.loop_at types.now room end tokens.now) }
{
    let (sorted, rest) = part_at(alloc, Part::Loop, types, room, end, tokens)?;
    Ok((loop_of(alloc, sorted), rest))
}

/// An assertion, with the line of its word.
#[tactic(auto, unfolding(crate::specs::Read::assert_at))]
pub fn assert_at<'a>(
    alloc: Global,
    types: &TypeNames,
    room: u32,
    tokens: &'a [Token],
) -> Read<'a, (Pred, Line)>
    ensures { Gives view_assert result (spec.assert_at types.now room tokens.now) }
{
    let Some((line, rest)) = keyword_at(b"assert", tokens) else {
        return Err(Fault::Syntax);
    };
    let (pred, rest) = pred_ended(alloc, types, room, rest)?;
    Ok(((pred, line), rest))
}

fn contract_of(
    alloc: Global,
    sorted: Sorted,
    behaviors: List<Behavior>,
    endings: List<Ending>,
) -> Result<Contract, NoMemory>
    ensures { IfOk result (λ c. view_contract c ≡ contract_made (view_sorted sorted) (map view_behavior behaviors) (map view_ending endings)) }
{
    let (complete, disjoint) = split_endings(alloc, endings)?;
    Ok(Contract {
        requires_: sorted.requires_,
        assigns: first_assigns(alloc, sorted.assigns),
        ensures_: sorted.ensures_,
        decreases_: first_measure(sorted.decreases_),
        behaviors,
        complete,
        disjoint,
    })
}

/// The contract of a function. `end` is the number of all tokens of the text.
#[tactic(auto, unfolding(crate::specs::Read::contract_at))]
pub fn contract_at<'a>(
    alloc: Global,
    types: &TypeNames,
    end: usize,
    tokens: &'a [Token],
) -> Read<'a, Contract>
    ensures { Gives view_contract result (spec.contract_at types.now end tokens.now) }
{
    let (sorted, rest) = part_at(alloc, Part::Contract, types, DEEPEST, end, tokens)?;
    let (behaviors, rest) = behaviors_at(alloc, types, end, rest)?;
    let (endings, rest) = endings_at(alloc, end, rest)?;
    let contract = contract_of(alloc, sorted, behaviors, endings)?;
    Ok((contract, rest))
}
