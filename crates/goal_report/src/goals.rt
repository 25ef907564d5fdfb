// The lines of the goals of a function, as they come.
ghost use Rattle.std.specs.Prelude.{◌≡◌, ◌++◌, ◌+◌, List, [], map, length, cond, IfOk, OnOk};
ghost use Rattle.qed_terms.specs.View.{formula_tree};
ghost use Rattle.goal_report.specs.Judging.{AreLines, shown};
ghost use Rattle.goal_report.specs.Report as spec;
ghost use Rattle.step_walks.specs.View.{view_place};

use crate::judges::Judge;
use crate::names::{check_name, verdict_name};
use crate::pieces::{put, put_number};
use goal_text::write_goal;
use qed_terms::{Formula, Goal, Verdict};
use std::alloc::Global;
use step_walks::{GoalSink, Place};
use walk_words::copy_known;
use wp_base::{List, NoMemory, Str};

/// The goals of a function that came so far, as the lines of its report.
#[derive(Drop)]
pub struct FunctionLines<J: Judge> {
    pub alloc: Global,
    /// Who decides goals.
    pub judge: J,
    /// Whether each goal's text is shown.
    pub shows: bool,
    /// The function's name.
    pub name: Str,
    pub text: Vec<u8>,
    /// How many goals there are.
    pub goals: usize,
    /// How many of them are proved.
    pub proved: usize,
}

// A goal of its own.
fn goal_of(alloc: Global, known: &[Formula], claim: &Formula) -> Result<Goal, NoMemory>
    ensures known { IfOk result (λ goal. goal.known ≡ known.now) }
    ensures check { IfOk result (λ goal. goal.check ≡ claim.now) }
{
    let known = List::from_vec(copy_known(alloc, known)?);
    let check = claim.copy(alloc)?;
    Ok(Goal { known, check })
}

// The line of a goal.
#[tactic(auto, using(crate::proofs::Spelling::goal_line_put))]
fn put_goal(
    text: &mut Vec<u8>,
    function: &Str,
    number: usize,
    place: Place,
    verdict: Verdict,
) -> Result<(), NoMemory>
    ensures { IfOk result (λ _. text.new.items ≡ text.old.items ++ spec.goal_line function.now number (spec.check_name place.kind) place.line verdict) }
{
    put(text, b"goal ")?;
    put(text, function.bytes())?;
    put(text, b" ")?;
    put_number(text, number)?;
    put(text, b" ")?;
    put(text, check_name(place.kind))?;
    put(text, b" line ")?;
    put_number(text, place.line)?;
    put(text, b" ")?;
    put(text, verdict_name(verdict))?;
    put(text, b"\n")
}

// The line of a goal's text, where it is to be shown.
#[tactic(auto, using(crate::proofs::Spelling::text_line_put, crate::proofs::Spelling::no_text_put))]
fn put_text(
    alloc: Global,
    text: &mut Vec<u8>,
    known: &[Formula],
    claim: &Formula,
    shows: bool,
) -> Result<(), NoMemory>
    ensures { IfOk result (λ _. text.new.items ≡ text.old.items ++ spec.text_line (shown shows (map formula_tree known.now) (formula_tree claim.now))) }
{
    if shows {
        let goal = goal_of(alloc, known, claim)?;
        put(text, b"  ")?;
        put(text, write_goal(alloc, &goal)?.bytes())?;
        put(text, b"\n")?;
    }
    Ok(())
}

// The lines of a goal.
fn put_judged(
    alloc: Global,
    text: &mut Vec<u8>,
    function: &Str,
    number: usize,
    place: Place,
    verdict: Verdict,
    known: &[Formula],
    claim: &Formula,
    shows: bool,
) -> Result<(), NoMemory>
    ensures { IfOk result (λ _. text.new.items ≡ text.old.items ++ spec.lines_of function.now number (record { place = view_place place; verdict = verdict; text = shown shows (map formula_tree known.now) (formula_tree claim.now) })) }
{
    put_goal(text, function, number, place, verdict)?;
    put_text(alloc, text, known, claim, shows)?;
    Ok(())
}

// One more, if this one is proved.
fn counted(verdict: Verdict, proved: usize) -> Result<usize, NoMemory>
    ensures { IfOk result (λ count. count ≡ proved + cond (spec.is_proved verdict) 1 0) }
{
    match verdict {
        Verdict::Proved => proved.checked_add(1).ok_or(NoMemory),
        Verdict::Open | Verdict::Branches | Verdict::Size => Ok(proved),
    }
}

impl<J: Judge> FunctionLines<J> {
    /// No goals of this function yet.
    pub fn begin(&mut self, name: Str)
        ensures fits { AreLines (J.says self.old.judge) self.old.shows name [] self.new.text.items self.new.goals self.new.proved }
        ensures name { self.new.name ≡ name }
        ensures judge { self.new.judge ≡ self.old.judge }
        ensures shows { self.new.shows ≡ self.old.shows }
    {
        self.name = name;
        self.text = Vec::new(self.alloc);
        self.goals = 0;
        self.proved = 0;
    }
}

impl<J: Judge> GoalSink for FunctionLines<J> {
    ghost fits = { λ first now gs. (now.judge ≡ first.judge) × (now.shows ≡ first.shows) × (now.name ≡ first.name) × AreLines (J.says first.judge) first.shows first.name gs now.text.items now.goals now.proved };

    fn take(&mut self, place: Place, known: &[Formula], claim: &Formula) -> Result<(), NoMemory> {
        let verdict = self.judge.judge(self.alloc, known, claim)?;
        let number = self.goals.checked_add(1).ok_or(NoMemory)?;
        let proved = counted(verdict, self.proved)?;
        put_judged(
            self.alloc,
            &mut self.text,
            &self.name,
            number,
            place,
            verdict,
            known,
            claim,
            self.shows,
        )?;
        self.goals = number;
        self.proved = proved;
        Ok(())
    }
}
