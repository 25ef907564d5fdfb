// From tokens to the declarations of a file.
ghost use Rattle.std.specs.Prelude.{◌≡◌, ℕ, List, IfOk};
ghost use Rattle.c_grammar.specs.Decls.{Lines as g_lines, SpellsLines};
ghost use Rattle.c_parser.specs.Outcome.{Answers, OnlyParsed, OnlyRefused, Refuses, SpellsPast, SpellsWithin, outcome, outcome_by};
ghost use Rattle.parse_file.specs.Views.{view_front};
ghost use Rattle.c_syntax.specs.Decl as d;
ghost use Rattle.c_syntax.specs.declared.token.Token.{Token};
ghost use Rattle.c_syntax.specs.View.{view_program};

use crate::limits::past_limit;
use c_syntax::{Program, Tokens};
use parse_file::{Front, file_front};
use std::alloc::Global;
use wp_base::{Line, Refusal, Rule, Stop};

fn refused(rule: Rule, line: Line) -> Stop
    ensures { result ≡ Stop.Refused (record { rule = rule; line = line }) }
{
    Stop::Refused(Refusal { rule, line })
}

// The program of what was read, unless tokens are left or a limit is passed.
fn finish(front: Front) -> Result<Program, Stop>
    ensures { Answers result (outcome_by front.entry.left.now (view_front front.entry)) }
{
    if let Some(next) = front.left.first() {
        return Err(refused(Rule::Syntax, next.line));
    }
    if let Some(line) = past_limit(front.lines.as_slice()) {
        return Err(refused(Rule::Limit, line));
    }
    Ok(Program { decls: front.decls })
}

// A whole file.
fn read_file(alloc: Global, tokens: &Tokens) -> Result<Program, Stop>
    ensures { Answers result (outcome tokens.now) }
{
    let front = file_front(alloc, tokens.as_slice())?;
    finish(front)
}

/// Reads a file. What isn't spelled is refused on the line of the first token behind the longest list of declarations, and what passes a
/// limit on the line of the first token past it.
pub fn parse(alloc: Global, tokens: &Tokens) -> Result<Program, Stop>
    ensures reads { Answers result (outcome tokens.now) }
    // What is read is what the tokens spell, within the limits.
    ensures spelled { IfOk result (λ p. SpellsWithin tokens.now (view_program p)) }
    // What the tokens spell within the limits is read, and as that program, unless memory runs out.
    ensures only { (q : d.Program) → SpellsWithin tokens.now q → OnlyParsed result q }
    // A refusal is by the rule of syntax, where nothing is spelled, on the line of the first token that isn't; or by that of limits, where a
    // program is spelled, on the line of the first token past one.
    ensures refusal { (x : Refusal) → result ≡ Err (Stop.Refused x) → Refuses tokens.now x }
    // A program that passes a limit is refused so, unless memory runs out.
    ensures limit { (line : ℕ) → SpellsPast tokens.now line → OnlyRefused result (record { rule = Rule.Limit; line = line }) }
{
    read_file(alloc, tokens)
}

/// Which program a file spells is determined, and so are the lines of its functions.
pub fn one_program()
    ensures { (tokens : List Token) → (p q : d.Program) → (ls ls' : List g_lines) → SpellsLines tokens p ls → SpellsLines tokens q ls' → (p ≡ q) × (ls ≡ ls') }
{}
