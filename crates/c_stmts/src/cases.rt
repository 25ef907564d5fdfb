// The numbers of the labels of a `switch` (C11 6.8.4.2p3).
ghost use Rattle.std.specs.Prelude.{◌≡◌};
ghost use Rattle.c_answers.specs.Answers.{Gives};
ghost use Rattle.c_stmts.specs.Cases as spec;

use c_answers::refused;
use indexmap::IndexSet;
use wp_base::{Line, Rule, Stop};

/// Adds the number of the label on this line, which none before it has.
pub(crate) fn add_case(line: Line, numbers: &mut IndexSet<i128>, number: i128) -> Result<(), Stop>
    ensures { Gives (λ _. numbers.new.keys) result (spec.with_case line numbers.old.keys number) }
{
    let is_new = numbers.insert(number)?;
    if is_new {
        Ok(())
    } else {
        Err(refused(Rule::Typing, line))
    }
}
