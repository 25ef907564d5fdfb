// The names of behaviors (ACSL 2.3.3).
ghost use Rattle.std.specs.Prelude.{◌≡◌, IfOk, map};
ghost use Rattle.acsl_clauses.specs.Clauses as spec;
ghost use Rattle.acsl_clauses.specs.Typed.{view_said};
ghost use Rattle.c_answers.specs.Answers.{Gives};
ghost use Rattle.c_syntax.specs.View.{view_behavior};

use crate::typed::Said;
use c_answers::refused;
use c_syntax::Behavior;
use name_table::Table;
use std::alloc::Global;
use wp_base::{Line, List, NoMemory, Rule, Stop, Str};

/// The behavior with the next number, by its name.
pub(crate) fn behavior_named(
    alloc: Global,
    behaviors: &mut Table<u32>,
    behavior: &Behavior,
) -> Result<Said, Stop>
    ensures { Gives (λ x. (view_said x, behaviors.new)) result (spec.behavior_named behaviors.old (view_behavior behavior.now)) }
{
    let count = behaviors.len();
    if count > u32::MAX as usize {
        return Err(Stop::NoMemory);
    }
    let number = count as u32;
    if !behaviors.declare(alloc, &behavior.name, number)? {
        return Err(refused(Rule::Name, behavior.line));
    }
    Ok(Said::Begins(number))
}

fn number_of(line: Line, number: Option<u32>) -> Result<u32, Stop>
    ensures { Gives (λ x. x) result (spec.number_of line number) }
{
    match number {
        Some(number) => Ok(number),
        None => Err(refused(Rule::Name, line)),
    }
}

/// The numbers of behaviors by their names.
#[tactic(auto, using(crate::proofs::Numbering::number_laws))]
pub(crate) fn numbers_of(
    alloc: Global,
    behaviors: &Table<u32>,
    line: Line,
    names: &[Str],
) -> Result<List<u32>, Stop>
    ensures { Gives (λ x. x) result (spec.numbers_of behaviors.now line names.now) }
{
    let mut numbers = Vec::new(alloc);
    for i in 0..names.len() {
        let number = number_of(line, behaviors.find(&names[i]))?;
        numbers.push(number)?;
    }
    Ok(List::from_vec(numbers))
}
