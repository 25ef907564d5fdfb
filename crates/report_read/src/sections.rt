// The sections of a report, one after another.
ghost use Rattle.std.specs.Prelude.{◌≡◌, IfOk, map};
ghost use Rattle.report_read.specs.Bytes.{all_of};
ghost use Rattle.report_read.specs.Read as spec;
ghost use Rattle.report_read.specs.View.{bytes_of, view_goal};

use crate::goals::{goal_at, hypothesis_at, ignored_at};
use crate::report::Goal;
use std::alloc::Global;
use wp_base::NoMemory;

/// The globals to which no pointer is taken to point, as many as stand there, and what stands behind them.
#[tactic(auto, using(crate::proofs::Many::seen_more, crate::proofs::Many::behind_more, crate::proofs::Many::found_end, crate::proofs::Many::behind_end, crate::proofs::Spelled::hypothesis_consumes))]
pub fn hypotheses_in(alloc: Global, text: &[u8]) -> Result<(Vec<&[u8]>, &[u8]), NoMemory>
    ensures found { IfOk result (λ r. map bytes_of r.0.items ≡ (all_of spec.hypothesis_at text.now).0) }
    ensures behind { IfOk result (λ r. r.1.now ≡ (all_of spec.hypothesis_at text.now).1) }
{
    let mut found = Vec::new(alloc);
    let mut rest = text;
    while let Some((name, behind)) = hypothesis_at(rest) {
        found.push(name)?;
        rest = behind;
    }
    Ok((found, rest))
}

/// The lines of ignored `\from`s, as many as stand there, and what stands behind them.
#[tactic(auto, using(crate::proofs::Many::found_more, crate::proofs::Many::behind_more, crate::proofs::Many::found_end, crate::proofs::Many::behind_end, crate::proofs::Spelled::ignored_consumes))]
pub fn ignored_in(alloc: Global, text: &[u8]) -> Result<(Vec<u32>, &[u8]), NoMemory>
    ensures found { IfOk result (λ r. r.0.items ≡ (all_of spec.ignored_at text.now).0) }
    ensures behind { IfOk result (λ r. r.1.now ≡ (all_of spec.ignored_at text.now).1) }
{
    let mut found = Vec::new(alloc);
    let mut rest = text;
    while let Some((line, behind)) = ignored_at(rest) {
        found.push(line)?;
        rest = behind;
    }
    Ok((found, rest))
}

/// The goals, as many as stand there, and what stands behind them.
#[tactic(auto, using(crate::proofs::Many::seen_more, crate::proofs::Many::behind_more, crate::proofs::Many::found_end, crate::proofs::Many::behind_end, crate::proofs::Spelled::goal_consumes))]
pub fn goals_in(alloc: Global, text: &[u8]) -> Result<(Vec<Goal<'_>>, &[u8]), NoMemory>
    ensures found { IfOk result (λ r. map view_goal r.0.items ≡ (all_of spec.goal_at text.now).0) }
    ensures behind { IfOk result (λ r. r.1.now ≡ (all_of spec.goal_at text.now).1) }
{
    let mut found = Vec::new(alloc);
    let mut rest = text;
    while let Some((goal, behind)) = goal_at(rest) {
        found.push(goal)?;
        rest = behind;
    }
    Ok((found, rest))
}
