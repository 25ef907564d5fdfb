// The report of a verified file.
ghost use Rattle.std.specs.Prelude.{◌≡◌, ◌-◌, ◌==◌, ◌++◌, ℕ, IfOk};
ghost use Rattle.binder_tables.specs.View.{view_table};
ghost use Rattle.c_syntax.specs.View.{view_program};
ghost use Rattle.checked_trees.specs.View.{view_checked_program};
ghost use Rattle.file_reports.specs.Bases.{bases_by};
ghost use Rattle.file_reports.specs.Lines.{IsReport, headed};
ghost use Rattle.file_reports.specs.View.{view_page};
ghost use Rattle.from_lines.specs.Froms as froms;
ghost use Rattle.goal_report.specs.Report.{summary_line};
ghost use Rattle.logic_texts.specs.Laws.{texts_by};
ghost use Rattle.qed_terms.specs.View.{view_setting};
ghost use Rattle.source_goals.specs.Walked.{AllBodiesClosed, file_goals_by};
ghost use Rattle.typed_unit.specs.View.{view_typed};
ghost use Rattle.wp_base.specs.declared.kinds.Kind.{Kind};
ghost use Rattle.wp_words.specs.CommandView.{view_wanted};

use crate::bodies::put_bodies;
use crate::judges::Prover;
use crate::pages::Page;
use binder_tables::Table;
use c_syntax::Program as Spelled;
use checked_trees::CheckedProgram;
use from_lines::from_lines;
use goal_report::{put_hypotheses, put_ignored, put_summary};
use std::alloc::Global;
use typed_unit::Typed;
use wp_base::{List, NoMemory, Str};

/// The report of a file, and whether all its goals are proved.
#[derive(Drop)]
pub struct FileReport {
    pub text: Str,
    pub all_proved: bool,
}

// What stands before the goals.
fn heading(alloc: Global, spelled: &Spelled, file: &[Str]) -> Result<Page, NoMemory>
    ensures { IfOk result (λ page. view_page page ≡ headed file.now (froms.from_lines (view_program spelled.now))) }
{
    let mut text = Vec::new(alloc);
    put_hypotheses(&mut text, file)?;
    let ignored = from_lines(alloc, spelled)?;
    put_ignored(&mut text, ignored.as_slice())?;
    Ok(Page {
        text,
        goals: 0,
        proved: 0,
    })
}

// The report, from its page.
fn finished(page: Page) -> Result<FileReport, NoMemory>
    ensures text { IfOk result (λ made. made.text ≡ page.text.items ++ summary_line page.goals page.proved (page.goals - page.proved)) }
    ensures all { IfOk result (λ made. made.all_proved ≡ (page.goals == page.proved)) }
{
    let mut page = page;
    put_summary(&mut page.text, page.goals as u128, page.proved as u128)?;
    let all_proved = page.goals == page.proved;
    Ok(FileReport {
        text: Str::from_vec(page.text),
        all_proved,
    })
}

/// The report of a verified file, of which this core program with its checks and this table of annotations are made, whose variables have these names, and
/// the slots of whose bodies have these base names.
pub(crate) fn report_of<'a>(
    alloc: Global,
    spelled: &Spelled,
    typed: &Typed<'_>,
    program: &CheckedProgram<'a>,
    table: &Table<'_>,
    file: &[Str],
    bases: &'a [List<Str>],
    judge: Prover<'_>,
) -> Result<FileReport, NoMemory>
    requires { bases.now ≡ bases_by (view_typed typed.now) (view_checked_program program.now) file.now }
    ensures { (kinds : (function number : ℕ) → Kind) → AllBodiesClosed (view_checked_program program.now) kinds → IfOk result (λ made. IsReport (view_setting judge.entry.order.now.setting) (view_wanted judge.entry.wanted) (view_typed typed.now) file.now (froms.from_lines (view_program spelled.now)) (file_goals_by (view_setting judge.entry.order.now.setting) (view_typed typed.now) (view_checked_program program.now) (texts_by (view_table table.now) judge.entry.order.now) file.now kinds) made.text made.all_proved) }
{
    let mut page = heading(alloc, spelled, file)?;
    put_bodies(alloc, typed, program, table, file, bases, judge, &mut page)?;
    finished(page)
}
