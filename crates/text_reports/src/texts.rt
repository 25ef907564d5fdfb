// From bytes to a report.
ghost use Rattle.std.specs.Prelude.{◌≤◌, length};
ghost use Rattle.c_lexer.specs.Tokens.{most_bytes};
ghost use Rattle.text_reports.specs.Answered.{TextAnswer, TokensAnswer};
ghost use Rattle.wp_words.specs.CommandView.{view_wanted};

use crate::trees::tree_report;
use c_kinds::Machdep;
use c_lexer::lex;
use c_parser::parse;
use c_syntax::Tokens;
use file_reports::FileReport;
use std::alloc::Global;
use wp_base::Stop;
use wp_words::Wanted;

// The report of the program that tokens spell.
#[tactic(auto, using(crate::proofs::Answering::tokens_ok, crate::proofs::Answering::tokens_err))]
fn tokens_report(
    alloc: Global,
    model: Machdep,
    tokens: &Tokens,
    wanted: Wanted,
) -> Result<FileReport, Stop>
    ensures { TokensAnswer model (view_wanted wanted) tokens.now result }
{
    match parse(alloc, tokens) {
        Ok(program) => tree_report(alloc, model, &program, wanted),
        Err(stop) => Err(stop),
    }
}

/// The report of the program that a text spells with this data model, as its goals are wanted; or the fault of the text.
#[tactic(auto, using(crate::proofs::Answering::text_ok))]
pub fn report_text(
    alloc: Global,
    model: Machdep,
    text: &[u8],
    wanted: Wanted,
) -> Result<FileReport, Stop>
    requires { length text.now ≤ most_bytes }
    ensures { TextAnswer model (view_wanted wanted) text.now result }
{
    match lex(alloc, text) {
        Ok(tokens) => tokens_report(alloc, model, &tokens, wanted),
        Err(stop) => Err(stop),
    }
}
