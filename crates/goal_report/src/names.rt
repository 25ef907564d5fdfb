// The names of checks and verdicts.
ghost use Rattle.std.specs.Prelude.{◌≡◌};
ghost use Rattle.goal_report.specs.Report as spec;

use qed_terms::Verdict;

/// The name of the check with this number.
#[tactic(auto, unfolding(crate::specs::Report::check_name))]
pub(crate) fn check_name(kind: u8) -> &'static [u8]
    ensures { result.now ≡ spec.check_name kind }
{
    match kind {
        0 => b"init",
        1 => b"overflow",
        2 => b"divzero",
        3 => b"shift",
        4 => b"access",
        5 => b"index",
        6 => b"pointer",
        7 => b"compare",
        8 => b"noreturn",
        9 => b"requires",
        10 => b"decreases",
        11 => b"complete",
        12 => b"disjoint",
        13 => b"assert",
        14 => b"invariant_entry",
        15 => b"variant_positive",
        16 => b"variant_less",
        17 => b"assigns",
        18 => b"ensures",
        19 => b"invariant_kept",
        _ => b"",
    }
}

pub(crate) fn verdict_name(verdict: Verdict) -> &'static [u8]
    ensures { result.now ≡ spec.verdict_name verdict }
{
    match verdict {
        Verdict::Proved => b"proved",
        Verdict::Open => b"unknown open",
        Verdict::Branches => b"unknown branches",
        Verdict::Size => b"unknown size",
    }
}
