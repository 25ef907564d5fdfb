// The names in a report.
ghost use Rattle.std.specs.Prelude.{◌≡◌, IfOk, map};
ghost use Rattle.report_read.specs.View.{bytes_of};
ghost use Rattle.report_shown.specs.Shown as spec;
ghost use Rattle.report_shown.specs.View.{view_goals};

use report_read::Goal;
use std::alloc::Global;
use wp_base::NoMemory;

/// Whether a name is among these.
pub fn is_among(names: &[&[u8]], name: &[u8]) -> bool
    ensures { result ≡ spec.is_among (map bytes_of names.now) name.now }
{
    for found in names {
        if *found == name {
            return true;
        }
    }
    false
}

fn push_if_new<'a>(names: &mut Vec<&'a [u8]>, name: &'a [u8]) -> Result<(), NoMemory>
    ensures { IfOk result (λ _. map bytes_of names.new.items ≡ spec.more_if_new (map bytes_of names.old.items) name.now) }
{
    if !is_among(names.as_slice(), name) {
        names.push(name)?;
    }
    Ok(())
}

/// The functions that have goals, each once.
#[tactic(auto, using(crate::proofs::Filtered::name_more, crate::proofs::Filtered::name_end))]
pub fn functions_of<'a>(alloc: Global, goals: &[Goal<'a>]) -> Result<Vec<&'a [u8]>, NoMemory>
    ensures { IfOk result (λ names. map bytes_of names.items ≡ spec.functions_of (view_goals goals.now)) }
{
    let mut names = Vec::new(alloc);
    for goal in goals {
        push_if_new(&mut names, goal.function)?;
    }
    Ok(names)
}

/// The checks that have goals, each once.
#[tactic(auto, using(crate::proofs::Filtered::name_more, crate::proofs::Filtered::name_end))]
pub fn checks_of<'a>(alloc: Global, goals: &[Goal<'a>]) -> Result<Vec<&'a [u8]>, NoMemory>
    ensures { IfOk result (λ names. map bytes_of names.items ≡ spec.checks_of (view_goals goals.now)) }
{
    let mut names = Vec::new(alloc);
    for goal in goals {
        push_if_new(&mut names, goal.check)?;
    }
    Ok(names)
}
