// The goals of bodies, as lines of a report.
ghost use Rattle.std.specs.Prelude.{◌≡◌, ℕ, map, slice_get, IfOk};
ghost use Rattle.binder_tables.specs.View.{view_table};
ghost use Rattle.checked_trees.specs.View.{view_checked_function, view_checked_program};
ghost use Rattle.file_reports.specs.Bases.{bases_by, body_bases_by};
ghost use Rattle.file_reports.specs.Lines.{BodyLines, FileLines, LinesPut, function_goals_by};
ghost use Rattle.file_reports.specs.View.{view_page};
ghost use Rattle.goal_report.specs.Judging.{AreLines};
ghost use Rattle.logic_texts.specs.Laws.{texts_by};
ghost use Rattle.plain_reports.specs.Reports.{name_or_none, says};
ghost use Rattle.plain_runs.specs.Fitting.{shape_of};
ghost use Rattle.plain_words.specs.Temporaries as counted;
ghost use Rattle.qed_terms.specs.View.{view_setting};
ghost use Rattle.source_goals.specs.Walked.{AllBodiesClosed, body_goals_by, file_goals_by};
ghost use Rattle.typed_unit.specs.View.{view_body, view_typed};
ghost use Rattle.walk_frames.specs.Words.{StepsClosed};
ghost use Rattle.wp_base.specs.declared.kinds.Kind.{Kind};
ghost use Rattle.wp_words.specs.CommandView.{view_wanted};

use crate::judges::Prover;
use crate::pages::{Page, put_lines};
use binder_tables::Table;
use c_scopes::Signature;
use checked_trees::{CheckedFunction, CheckedProgram};
use function_goals::walk_function;
use goal_report::FunctionLines;
use logic_texts::LogicTexts;
use plain_sources::temporaries_in;
use std::alloc::Global;
use typed_unit::{Body, Typed};
use verified_sources::item_at;
use wp_base::{List, NoMemory, Str};

// The name of a function by its number.
fn name_at(alloc: Global, functions: &[Signature], number: u32) -> Result<Str, NoMemory>
    ensures { IfOk result (λ name. name ≡ name_or_none (slice_get functions.now number)) }
{
    match functions.get(number as usize) {
        Some(function) => function.name.copy(alloc),
        None => Ok(Str::from_vec(Vec::new(alloc))),
    }
}

// The lines of the goals of a function, as they come from its walk.
fn lines_of<'a, 'o>(
    alloc: Global,
    program: &CheckedProgram<'a>,
    table: &Table<'_>,
    number: u32,
    function: &CheckedFunction<'a>,
    temporaries: usize,
    bases: &'a List<Str>,
    name: Str,
    judge: Prover<'o>,
) -> Result<FunctionLines<Prover<'o>>, NoMemory>
    ensures { (k : ℕ → Kind) → StepsClosed (view_checked_program program.now).facts (shape_of (view_checked_function function.now) temporaries k) (view_checked_function function.now).body → IfOk result (λ lines. AreLines (says (view_setting judge.entry.order.now.setting) (view_wanted judge.entry.wanted)) judge.entry.wanted.shows_goals name (function_goals_by (view_setting judge.entry.order.now.setting) (view_checked_program program.now) (texts_by (view_table table.now) judge.entry.order.now) number (view_checked_function function.now) temporaries k bases.now) lines.text.items lines.goals lines.proved) }
{
    let texts = LogicTexts {
        table,
        known: judge.order.called.as_slice(),
    };
    let mut lines = FunctionLines {
        alloc,
        judge,
        shows: judge.wanted.shows_goals,
        name,
        text: Vec::new(alloc),
        goals: 0,
        proved: 0,
    };
    walk_function(
        alloc,
        program,
        number,
        function,
        temporaries,
        bases,
        &texts,
        &mut lines,
    )?;
    Ok(lines)
}

// The lines of the goals of a function that is walked.
fn put_function<'a>(
    alloc: Global,
    typed: &Typed<'_>,
    program: &CheckedProgram<'a>,
    table: &Table<'_>,
    bases: &'a List<Str>,
    judge: Prover<'_>,
    number: u32,
    function: &CheckedFunction<'a>,
    page: &mut Page,
) -> Result<(), NoMemory>
    ensures { (k : ℕ → Kind) → StepsClosed (view_checked_program program.now).facts (shape_of (view_checked_function function.now) (counted.temporaries_in (view_checked_function function.now).body) k) (view_checked_function function.now).body → IfOk result (λ _. LinesPut (view_setting judge.entry.order.now.setting) (view_wanted judge.entry.wanted) (view_typed typed.now) number (function_goals_by (view_setting judge.entry.order.now.setting) (view_checked_program program.now) (texts_by (view_table table.now) judge.entry.order.now) number (view_checked_function function.now) (counted.temporaries_in (view_checked_function function.now).body) k bases.now) (view_page page.old) (view_page page.new)) }
{
    let name = name_at(alloc, typed.file.functions.as_slice(), number)?;
    let temporaries = temporaries_in(function.body.as_slice());
    let lines = lines_of(
        alloc,
        program,
        table,
        number,
        function,
        temporaries,
        bases,
        name,
        judge,
    )?;
    put_lines(page, &lines)
}

// The lines of a body's goals; of a function that isn't there there are none.
fn put_body<'a>(
    alloc: Global,
    typed: &Typed<'_>,
    program: &CheckedProgram<'a>,
    table: &Table<'_>,
    file: &[Str],
    bases: &'a List<Str>,
    judge: Prover<'_>,
    body: &Body<'_>,
    page: &mut Page,
) -> Result<(), NoMemory>
    requires { bases.now ≡ body_bases_by (view_typed typed.now) (view_checked_program program.now) file.now (view_body body.now) }
    ensures { (kinds : (function number : ℕ) → Kind) → AllBodiesClosed (view_checked_program program.now) kinds → IfOk result (λ _. BodyLines (view_setting judge.entry.order.now.setting) (view_wanted judge.entry.wanted) (view_typed typed.now) (body_goals_by (view_setting judge.entry.order.now.setting) (view_typed typed.now) (view_checked_program program.now) (texts_by (view_table table.now) judge.entry.order.now) file.now kinds (view_body body.now)) (view_page page.old) (view_page page.new)) }
{
    let number = body.function;
    match item_at(program.functions.as_slice(), number) {
        Some(function) => put_function(
            alloc, typed, program, table, bases, judge, number, function, page,
        ),
        None => Ok(()),
    }
}

/// The lines of the goals of all bodies, whose slots have these base names.
pub(crate) fn put_bodies<'a>(
    alloc: Global,
    typed: &Typed<'_>,
    program: &CheckedProgram<'a>,
    table: &Table<'_>,
    file: &[Str],
    bases: &'a [List<Str>],
    judge: Prover<'_>,
    page: &mut Page,
) -> Result<(), NoMemory>
    requires { bases.now ≡ bases_by (view_typed typed.now) (view_checked_program program.now) file.now }
    ensures { (kinds : (function number : ℕ) → Kind) → AllBodiesClosed (view_checked_program program.now) kinds → IfOk result (λ _. FileLines (view_setting judge.entry.order.now.setting) (view_wanted judge.entry.wanted) (view_typed typed.now) (file_goals_by (view_setting judge.entry.order.now.setting) (view_typed typed.now) (view_checked_program program.now) (texts_by (view_table table.now) judge.entry.order.now) file.now kinds) (view_page page.old) (view_page page.new)) }
{
    let bodies = typed.bodies.as_slice();
    for index in 0..bodies.len() {
        let body = &bodies[index];
        let names = &bases[index];
        put_body(alloc, typed, program, table, file, names, judge, body, page)?;
    }
    Ok(())
}
