// What functions read, also through those that they call.
ghost use Rattle.std.specs.Prelude.{◌≡◌, ◌≤◌, ◌<◌, ℕ, length, IfOk};
ghost use Rattle.acsl_encode.specs.Told as told;
ghost use Rattle.acsl_expand.specs.Expansion.{view_all};
ghost use Rattle.logic_calls.specs.Told as spec;
ghost use Rattle.logic_trees.specs.Asking.{asks, told_in};

use acsl_expand::Meant;
use logic_trees::{Asked, reads};
use std::alloc::Global;
use wp_base::NoMemory;

// Which of the first functions read what is asked of.
fn first_reads(
    alloc: Global,
    definitions: &[Meant],
    count: usize,
    globals: usize,
    asked: Asked,
) -> Result<Vec<bool>, NoMemory>
    requires { count ≤ length definitions.now }
    ensures { IfOk result (λ made. (f : ℕ) → told_in made.items f ≡ told.reads_first (asks globals asked) (view_all definitions.now) count f) }
{
    let mut made = Vec::new(alloc);
    for at in 0..count {
        let read = reads(&definitions[at].body, globals, asked, made.as_slice());
        made.push(read)?;
    }
    Ok(made)
}

// What is told of a function.
#[tactic(auto, using(crate::proofs::Reading_first::told_laws))]
fn told_at(told: &[bool], function: usize) -> bool
    ensures { result ≡ told_in told.now function }
{
    if function < told.len() {
        told[function]
    } else {
        false
    }
}

/// Whether a function reads what is asked of.
pub(crate) fn is_read(
    alloc: Global,
    definitions: &[Meant],
    globals: usize,
    function: usize,
    asked: Asked,
) -> Result<bool, NoMemory>
    requires { function < length definitions.now }
    ensures { IfOk result (λ read. read ≡ spec.reads_at globals (view_all definitions.now) function asked) }
{
    let told = first_reads(alloc, definitions, function + 1, globals, asked)?;
    Ok(told_at(told.as_slice(), function))
}
