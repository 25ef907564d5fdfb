// From the tree of a text to its report.
ghost use Rattle.c_syntax.specs.View as syntax;
ghost use Rattle.text_reports.specs.Answered.{AnnotatedAnswer, TreeAnswer, TypedAnswer};
ghost use Rattle.typed_unit.specs.View.{view_typed};
ghost use Rattle.acsl_typing.specs.Annotations.{view_annotations};
ghost use Rattle.wp_words.specs.CommandView.{view_wanted};

use acsl_annotated::type_annotated;
use acsl_typing::Annotations;
use c_kinds::Machdep;
use c_syntax::Program;
use c_typing::type_program;
use file_reports::{FileReport, report_file};
use std::alloc::Global;
use typed_unit::Typed;
use wp_base::{NoMemory, Refusal, Rule, Stop};
use wp_words::Wanted;

// What isn't verified is said of line 1.
const UNBUILT: Refusal = Refusal {
    rule: Rule::Unbuilt,
    line: 1,
};

// With its annotations.
fn annotated_report(
    alloc: Global,
    program: &Program,
    typed: &Typed<'_>,
    annotations: &Annotations,
    wanted: Wanted,
) -> Result<FileReport, Stop>
    ensures { AnnotatedAnswer (view_wanted wanted) (syntax.view_program program.now) (view_typed typed.now) (view_annotations annotations.now) result }
{
    match report_file(alloc, program, typed, annotations, wanted) {
        Ok(Some(report)) => Ok(report),
        Ok(None) => Err(Stop::Refused(UNBUILT)),
        Err(NoMemory) => Err(Stop::NoMemory),
    }
}

// With its names and types.
#[tactic(auto, using(crate::proofs::Answering::typed_ok, crate::proofs::Answering::typed_err))]
fn typed_report(
    alloc: Global,
    program: &Program,
    typed: &Typed<'_>,
    wanted: Wanted,
) -> Result<FileReport, Stop>
    ensures { TypedAnswer (view_wanted wanted) (syntax.view_program program.now) (view_typed typed.now) result }
{
    match type_annotated(alloc, typed) {
        Ok(annotations) => annotated_report(alloc, program, typed, &annotations, wanted),
        Err(stop) => Err(stop),
    }
}

/// The report of the program that a tree is with this data model; or the first fault of its declarations and its code, or else the first one of its
/// annotations, or else that it isn't verified.
#[tactic(auto, using(crate::proofs::Answering::tree_ok))]
pub(crate) fn tree_report(
    alloc: Global,
    model: Machdep,
    program: &Program,
    wanted: Wanted,
) -> Result<FileReport, Stop>
    ensures { TreeAnswer model (view_wanted wanted) (syntax.view_program program.now) result }
{
    match type_program(alloc, program, model) {
        Ok(typed) => typed_report(alloc, program, &typed, wanted),
        Err(stop) => Err(stop),
    }
}
