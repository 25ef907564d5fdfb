// From a typed file with its annotations to its report.
ghost use Rattle.std.specs.Prelude.{◌≡◌, IfOk};
ghost use Rattle.acsl_typing.specs.Annotations.{Annotations as Said, view_annotations};
ghost use Rattle.binder_names.specs.Tables as tables;
ghost use Rattle.binder_tables.specs.View.{view_table};
ghost use Rattle.c_programs.specs.Files as files;
ghost use Rattle.c_syntax.specs.View as syntax;
ghost use Rattle.checked_trees.specs.View.{view_checked_program};
ghost use Rattle.file_reports.specs.Bases.{bases_by};
ghost use Rattle.file_reports.specs.Made.{Makes, source_by};
ghost use Rattle.plain_goals.specs.Files.{core_of, names_in};
ghost use Rattle.program_trees.specs.View.{view_program};
ghost use Rattle.typed_unit.specs.View.{view_typed};
ghost use Rattle.wp_words.specs.CommandView.{view_wanted};

use crate::bases::all_bases;
use crate::judges::Prover;
use crate::reports::{FileReport, report_of};
use acsl_typing::Annotations;
use binder_tables::{Table, table_of};
use c_syntax::Program as Spelled;
use checked_trees::CheckedProgram;
use checks_added::add_checks;
use made_programs::program_of;
use normal_programs::normalise;
use plain_sources::names_of;
use plain_test::is_plain;
use program_trees::Program;
use std::alloc::Global;
use typed_unit::Typed;
use verified_sources::verified_order;
use wp_base::{List, NoMemory, Str};
use wp_words::Wanted;

// The report, where the file is verified, with the names of its variables, the table of its annotations, and the base names of its slots.
fn of_parts<'a>(
    alloc: Global,
    spelled: &Spelled,
    typed: &Typed<'_>,
    program: &Program<'_>,
    checked: &CheckedProgram<'a>,
    table: &Table<'_>,
    file: &[Str],
    bases: &'a [List<Str>],
    wanted: Wanted,
) -> Result<Option<FileReport>, NoMemory>
    requires { bases.now ≡ bases_by (view_typed typed.now) (view_checked_program checked.now) file.now }
    ensures { (annots : Said) → view_program program.now ≡ files.program_of (view_typed typed.now) annots → view_checked_program checked.now ≡ core_of (view_typed typed.now) annots → view_table table.now ≡ tables.table_of (view_typed typed.now) (view_program program.now).functions → file.now ≡ names_in (view_typed typed.now).file.globals → IfOk result (λ made. Makes (view_wanted wanted) (source_by (syntax.view_program spelled.now) (view_typed typed.now) annots) made) }
{
    match verified_order(alloc, typed, program, checked, table, file)? {
        None => Ok(None),
        Some(order) => {
            let judge = Prover {
                order: &order,
                wanted,
            };
            let report = report_of(alloc, spelled, typed, checked, table, file, bases, judge)?;
            Ok(Some(report))
        }
    }
}

// With the program that it is, and the names of its variables.
fn of_program(
    alloc: Global,
    spelled: &Spelled,
    typed: &Typed<'_>,
    program: &Program<'_>,
    file: &[Str],
    wanted: Wanted,
) -> Result<Option<FileReport>, NoMemory>
    ensures { (annots : Said) → view_program program.now ≡ files.program_of (view_typed typed.now) annots → file.now ≡ names_in (view_typed typed.now).file.globals → IfOk result (λ made. Makes (view_wanted wanted) (source_by (syntax.view_program spelled.now) (view_typed typed.now) annots) made) }
{
    let core = normalise(alloc, program)?;
    let bases = all_bases(alloc, typed, &core, file)?;
    let table = table_of(alloc, typed, program)?;
    let checked = add_checks(alloc, &core)?;
    of_parts(
        alloc,
        spelled,
        typed,
        program,
        &checked,
        &table,
        file,
        bases.as_slice(),
        wanted,
    )
}

/// The report of a typed file with its annotations, whose definitions are expanded, as its goals are wanted; none, where it isn't verified.
pub fn report_file(
    alloc: Global,
    spelled: &Spelled,
    typed: &Typed<'_>,
    annotations: &Annotations,
    wanted: Wanted,
) -> Result<Option<FileReport>, NoMemory>
    ensures { IfOk result (λ made. Makes (view_wanted wanted) (source_by (syntax.view_program spelled.now) (view_typed typed.now) (view_annotations annotations.now)) made) }
{
    if !is_plain(typed) {
        return Ok(None);
    }
    let program = program_of(alloc, typed, annotations)?;
    let file = names_of(alloc, typed.file.globals.as_slice())?;
    of_program(alloc, spelled, typed, &program, file.as_slice(), wanted)
}
