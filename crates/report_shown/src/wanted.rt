// Which goals are shown.
ghost use Rattle.std.specs.Prelude.{◌≡◌, IfOk};
ghost use Rattle.std.specs.Option.{option_map};
ghost use Rattle.report_read.specs.View.{bytes_of, view_goal};
ghost use Rattle.report_shown.specs.Shown as spec;
ghost use Rattle.report_shown.specs.View.{view_goals, view_wanted};

use qed_terms::Verdict;
use report_read::Goal;
use std::alloc::Global;
use wp_base::NoMemory;

/// Which verdicts are shown.
#[derive(Clone, Copy, Debug, PartialEq, Eq)]
pub enum Only {
    All,
    Proved,
    Unknown,
}

/// Which goals are wanted: of this function, of this check, with this verdict.
#[derive(Clone, Copy)]
pub struct Wanted<'a> {
    pub function: Option<&'a [u8]>,
    pub check: Option<&'a [u8]>,
    pub only: Only,
}

fn is_named(name: Option<&[u8]>, word: &[u8]) -> bool
    ensures { result ≡ spec.is_named (option_map bytes_of name.entry) word.now }
{
    match name {
        Some(name) => word == name,
        None => true,
    }
}

fn has_verdict(only: Only, verdict: Verdict) -> bool
    ensures { result ≡ spec.has_verdict only verdict }
{
    match only {
        Only::All => true,
        Only::Proved => verdict == Verdict::Proved,
        Only::Unknown => verdict != Verdict::Proved,
    }
}

fn is_wanted(wanted: Wanted, goal: Goal) -> bool
    ensures { result ≡ spec.is_wanted (view_wanted wanted.entry) (view_goal goal.entry) }
{
    is_named(wanted.function, goal.function)
        && is_named(wanted.check, goal.check)
        && has_verdict(wanted.only, goal.verdict)
}

/// The goals that are wanted, in order.
#[tactic(auto, unfolding(crate::specs::Shown::shown), using(crate::proofs::Filtered::passes, crate::proofs::Filtered::passes_not, crate::proofs::Filtered::passed))]
pub fn shown<'a>(
    alloc: Global,
    wanted: Wanted,
    goals: &[Goal<'a>],
) -> Result<Vec<Goal<'a>>, NoMemory>
    ensures { IfOk result (λ found. view_goals found.items ≡ spec.shown (view_wanted wanted.entry) (view_goals goals.now)) }
{
    let mut found = Vec::new(alloc);
    for goal in goals {
        if is_wanted(wanted, *goal) {
            found.push(*goal)?;
        }
    }
    Ok(found)
}

/// Whether each of these goals is proved.
pub fn all_proved(goals: &[Goal]) -> bool
    ensures { result ≡ spec.all_proved (view_goals goals.now) }
{
    for goal in goals {
        if goal.verdict != Verdict::Proved {
            return false;
        }
    }
    true
}
