// Goals of one function that come one after another.
ghost use Rattle.std.specs.Prelude.{◌≡◌, ◌<◌, ◌≤◌, IfOk, map, length};
ghost use Rattle.std.specs.List.{prefix_len};
ghost use Rattle.std.specs.Str.{bytes_eq};
ghost use Rattle.report_shown.specs.Shown as spec;
ghost use Rattle.report_shown.specs.View.{view_goals, view_run};

use report_read::Goal;
use std::alloc::Global;
use wp_base::NoMemory;

// How many goals at the front are of this function.
#[tactic(auto, using(crate::proofs::Running::same_more, crate::proofs::Running::same_end, crate::proofs::Running::same_over))]
fn same_len(function: &[u8], goals: &[Goal]) -> usize
    ensures value { result ≡ prefix_len (λ g. bytes_eq g.function function.now) (view_goals goals.now) }
    ensures within { result ≤ length goals.now }
{
    let mut len = 0;
    for goal in goals {
        if goal.function != function {
            return len;
        }
        len += 1;
    }
    len
}

// How many goals at the front are of the first one's function.
fn run_len(goals: &[Goal]) -> usize
    ensures value { result ≡ spec.run_len (view_goals goals.now) }
    ensures within { result ≤ length goals.now }
    ensures some { 0 < length goals.now → 0 < result }
{
    match goals.split_first() {
        Some((first, others)) => same_len(first.function, others) + 1,
        None => 0,
    }
}

/// The goals, cut where the function changes.
#[tactic(auto, using(crate::proofs::Running::run_more, crate::proofs::Running::run_end))]
pub fn runs<'b, 'a>(alloc: Global, goals: &'b [Goal<'a>]) -> Result<Vec<&'b [Goal<'a>]>, NoMemory>
    ensures { IfOk result (λ found. map view_run found.items ≡ spec.runs (view_goals goals.now)) }
{
    let mut found = Vec::new(alloc);
    let mut at = 0;
    while at < goals.len() {
        let len = run_len(&goals[at..]);
        found.push(&goals[at..at + len])?;
        at += len;
    }
    Ok(found)
}
