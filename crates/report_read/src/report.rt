// A report in memory, which borrows from its text.
ghost use Rattle.std.specs.Prelude.{◌≡◌, ◌≤◌, ◌-◌, ◌++◌, IfOk, map, length};
ghost use Rattle.std.specs.Fmt.{decimal};
ghost use Rattle.report_read.specs.Report as spec;
ghost use Rattle.report_read.specs.View.{view_goal};

use itoa::Buffer;
use qed_terms::Verdict;
use std::alloc::Global;
use wp_base::NoMemory;

/// A goal of a report.
#[derive(Clone, Copy)]
pub struct Goal<'a> {
    pub function: &'a [u8],
    /// Its number in its function, from 1.
    pub number: u32,
    pub check: &'a [u8],
    /// The line of what is checked, from 1.
    pub line: u32,
    pub verdict: Verdict,
    /// Its text, where the report shows it.
    pub formula: Option<&'a [u8]>,
}

/// A report that isn't a refusal.
#[derive(Drop)]
pub struct Report<'a> {
    /// Globals that no pointer is taken to point to.
    pub hypotheses: Vec<&'a [u8]>,
    /// Lines whose `\from` is ignored.
    pub ignored: Vec<u32>,
    pub goals: Vec<Goal<'a>>,
}

/// The line that refuses a text.
#[derive(Clone, Copy)]
pub struct Refusal<'a> {
    pub line: u32,
    pub number: u32,
    pub rule: &'a [u8],
}

/// What `wp` writes.
#[derive(Drop)]
pub enum Document<'a> {
    Report(Report<'a>),
    Refusal(Refusal<'a>),
}

/// Whether a verdict is `proved`.
pub fn is_proved(verdict: Verdict) -> bool
    ensures { result ≡ spec.is_proved verdict }
{
    match verdict {
        Verdict::Proved => true,
        Verdict::Open | Verdict::Branches | Verdict::Size => false,
    }
}

/// A verdict, as reports have it.
pub fn verdict_name(verdict: Verdict) -> &'static [u8]
    ensures { result.now ≡ spec.verdict_name verdict }
{
    match verdict {
        Verdict::Proved => b"proved",
        Verdict::Open => b"unknown open",
        Verdict::Branches => b"unknown branches",
        Verdict::Size => b"unknown size",
    }
}

/// How many goals are proved.
pub fn proved_in(goals: &[Goal]) -> usize
    ensures value { result ≡ spec.proved_in (map view_goal goals.now) }
    ensures within { result ≤ length goals.now }
{
    goals.iter().filter(|goal| is_proved(goal.verdict)).count()
}

fn put(text: &mut Vec<u8>, bytes: &[u8]) -> Result<(), NoMemory>
    ensures { IfOk result (λ _. text.new.items ≡ text.old.items ++ bytes.now) }
{
    text.extend_from_slice(bytes)?;
    Ok(())
}

fn put_number(text: &mut Vec<u8>, number: usize) -> Result<(), NoMemory>
    ensures { IfOk result (λ _. text.new.items ≡ text.old.items ++ decimal number) }
{
    let mut buffer = Buffer::new();
    put(text, buffer.format(number).as_bytes())
}

#[tactic(auto, using(crate::proofs::Summary::sums_put))]
fn put_sums(text: &mut Vec<u8>, goals: usize, proved: usize) -> Result<(), NoMemory>
    requires { proved ≤ goals }
    ensures { IfOk result (λ _. text.new.items ≡ text.old.items ++ spec.sums_line goals proved (goals - proved)) }
{
    put(text, b"goals ")?;
    put_number(text, goals)?;
    put(text, b" proved ")?;
    put_number(text, proved)?;
    put(text, b" unknown ")?;
    put_number(text, goals - proved)?;
    put(text, b"\n")
}

/// The last line of a report with these goals.
#[tactic(auto, using(crate::proofs::Summary::summary_put))]
pub fn summary_text(alloc: Global, goals: &[Goal]) -> Result<Vec<u8>, NoMemory>
    ensures { IfOk result (λ text. text.items ≡ spec.summary_line (map view_goal goals.now)) }
{
    let mut text = Vec::new(alloc);
    put_sums(&mut text, goals.len(), proved_in(goals))?;
    Ok(text)
}
