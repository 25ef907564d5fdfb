// Limits: functions of a file, parameters and statements of a function.
ghost use Rattle.std.specs.Prelude.{◌≡◌, map};
ghost use Rattle.c_grammar.specs.Decls.{past_limit as line_past_limit};
ghost use Rattle.c_parser.specs.Outcome.{line_within};
ghost use Rattle.parse_file.specs.Views.{view_lines};

use c_grammar::{MOST_FUNCTIONS, MOST_PARAMS, MOST_STMTS};
use parse_file::Lines;
use wp_base::Line;

// The line of the first parameter, or else of the first statement, that is one too many.
fn line_in(function: &Lines) -> Option<Line>
    ensures { result ≡ line_within (view_lines function.now) }
{
    if let Some(line) = function.params.get(MOST_PARAMS) {
        return Some(*line);
    }
    match function.stmts.get(MOST_STMTS) {
        Some(line) => Some(*line),
        None => None,
    }
}

/// The line of the first token past a limit.
#[tactic(auto, using(crate::proofs::PastLimits::limit_none, crate::proofs::PastLimits::limit_first, crate::proofs::PastLimits::limit_inside, crate::proofs::PastLimits::limit_goes))]
pub fn past_limit(functions: &[Lines]) -> Option<Line>
    ensures { result ≡ line_past_limit 0 (map view_lines functions.now) }
{
    let mut rest = functions;
    for count in 0..functions.len() {
        let Some((function, after)) = rest.split_first() else {
            return None;
        };
        if count >= MOST_FUNCTIONS {
            return Some(function.first);
        }
        if let Some(line) = line_in(function) {
            return Some(line);
        }
        rest = after;
    }
    None
}
