// Tags that are made: with a class, a line, a name.
ghost use Rattle.std.specs.Prelude.{◌≡◌, IfOk};
ghost use Rattle.report_page.specs.Page as spec;
ghost use Rattle.report_shown.specs.View.{view_goals};

use crate::markup::put_shown;
use qed_terms::Verdict;
use report_read::Goal;
use report_shown::{all_proved, put, put_number};
use std::alloc::Global;
use wp_base::NoMemory;

// Which colour goals have.
fn class_of(goals: &[Goal]) -> &'static [u8]
    ensures { result.now ≡ spec.class_of (view_goals goals.now) }
{
    if goals.is_empty() {
        b"none"
    } else if all_proved(goals) {
        b"proved"
    } else {
        b"unknown"
    }
}

/// The tag of a goal's row.
pub fn goal_tag(verdict: Verdict) -> &'static [u8]
    ensures { result.now ≡ spec.goal_tag verdict }
{
    match verdict {
        Verdict::Proved => b"tr class=proved",
        Verdict::Open | Verdict::Branches | Verdict::Size => b"tr class=unknown",
    }
}

/// The tag of a line.
#[tactic(auto, unfolding(crate::specs::Page::line_tag), using(crate::proofs::Pieces::line_tag_put))]
pub fn line_tag(alloc: Global, line: u64, goals: &[Goal]) -> Result<Vec<u8>, NoMemory>
    ensures { IfOk result (λ tag. tag.items ≡ spec.line_tag line (view_goals goals.now)) }
{
    let mut tag = Vec::new(alloc);
    put(&mut tag, b"div class=")?;
    put(&mut tag, class_of(goals))?;
    put(&mut tag, b" id=L")?;
    put_number(&mut tag, line)?;
    Ok(tag)
}

/// The tag of a link to a line.
#[tactic(auto, unfolding(crate::specs::Page::link_tag))]
pub fn link_tag(alloc: Global, line: u32) -> Result<Vec<u8>, NoMemory>
    ensures { IfOk result (λ tag. tag.items ≡ spec.link_tag line) }
{
    let mut tag = Vec::new(alloc);
    put(&mut tag, b"a href=#L")?;
    put_number(&mut tag, line)?;
    Ok(tag)
}

/// The tag of a function's row.
#[tactic(auto, unfolding(crate::specs::Page::run_tag), using(crate::proofs::Pieces::run_tag_put))]
pub fn run_tag(alloc: Global, name: &[u8], goals: &[Goal]) -> Result<Vec<u8>, NoMemory>
    ensures { IfOk result (λ tag. tag.items ≡ spec.run_tag name.now (view_goals goals.now)) }
{
    let mut tag = Vec::new(alloc);
    put(&mut tag, b"tr class=")?;
    put(&mut tag, class_of(goals))?;
    put(&mut tag, b" id=\"f-")?;
    put_shown(alloc, &mut tag, name)?;
    put(&mut tag, b"\"")?;
    Ok(tag)
}
