// Statements, and the blocks that they make.
ghost use Rattle.std.specs.Prelude.{◌-◌, true, false, length};
ghost use Rattle.c_grammar.specs.Views.{Gives};
ghost use Rattle.c_syntax.specs.View.{view_loop};
ghost use Rattle.parse_stmts.specs.Read as spec;
ghost use Rattle.parse_stmts.specs.Views.{other_with, stmt_with, stmts_with};

use c_grammar::{Fault, Read, TypeNames, expect, first_line, if_of, keyword_at, punct_at, word_at};
use c_syntax::{LoopAnnot, Punct, Stmt, Token, Word};
use parse_leaf_stmts::{
    Around, Form, assertion_at, block_of, case_at, default_at, do_end_at, do_of, for_of, form_of,
    head_at, is_switch, locals_at, loop_annot_at, no_annot, plain_at, switch_of, test_at, while_of,
};
use parse_types::starts_type;
use std::alloc::Global;
use wp_base::{Boxed, Line, List};

// What stands in the braces of a block, or in those of a `switch`.
#[cycle(stmts)]
#[tactic(auto, unfolding(crate::specs::Read::item))]
fn item<'a>(
    alloc: Global,
    types: &TypeNames,
    around: Around,
    cases: bool,
    room: u32,
    starts: &mut List<Line>,
    tokens: &'a [Token],
) -> Read<'a, Stmt>
    ensures { Gives (stmt_with starts.new) result (spec.item types.now room cases (spec.stmt types.now around.end room around.loops around.breaks) starts.old tokens.now) }
{
    if cases {
        if let Some((line, rest)) = word_at(Word::Case, tokens) {
            return case_at(alloc, types, room, line, rest);
        }
        if let Some((line, rest)) = word_at(Word::Default, tokens) {
            return default_at(line, rest);
        }
        return stmt(alloc, types, around, room, starts, tokens);
    }
    if starts_type(types, tokens) {
        starts.push(first_line(tokens))?;
        return locals_at(alloc, types, room, tokens);
    }
    stmt(alloc, types, around, room, starts, tokens)
}

/// Items up to a closing brace, with its line.
#[cycle(stmts)]
#[tactic(auto, using(crate::proofs::Turns::stmts_out))]
pub fn stmts<'a>(
    alloc: Global,
    types: &TypeNames,
    around: Around,
    cases: bool,
    room: u32,
    starts: &mut List<Line>,
    tokens: &'a [Token],
) -> Read<'a, (List<Stmt>, Line)>
    ensures { Gives (stmts_with starts.new) result (spec.stmts (spec.item types.now room cases (spec.stmt types.now around.end room around.loops around.breaks)) (length tokens.now) starts.old tokens.now) }
{
    let mut items = List::new(alloc);
    let mut rest = tokens;
    for turn in 0..tokens.len() {
        if let Some((line, after)) = punct_at(Punct::CloseBrace, rest) {
            return Ok(((items, line), after));
        }
        let (one, after) = item(alloc, types, around, cases, room, starts, rest)?;
        items.push(one)?;
        rest = after;
    }
    Err(Fault::Syntax)
}

// A block behind its opening brace.
#[cycle(stmts)]
#[tactic(auto, unfolding(crate::specs::Read::braces))]
fn braces<'a>(
    alloc: Global,
    types: &TypeNames,
    around: Around,
    room: u32,
    line: Line,
    starts: &mut List<Line>,
    tokens: &'a [Token],
) -> Read<'a, Stmt>
    ensures { Gives (stmt_with starts.new) result (spec.braces (spec.item types.now room false (spec.stmt types.now around.end room around.loops around.breaks)) line starts.old tokens.now) }
{
    let ((items, _), rest) = stmts(alloc, types, around, false, room, starts, tokens)?;
    Ok((block_of(line, items), rest))
}

// The body of an `if`, an `else` or a loop.
#[cycle(stmts)]
#[tactic(auto, unfolding(crate::specs::Read::body))]
fn body<'a>(
    alloc: Global,
    types: &TypeNames,
    around: Around,
    room: u32,
    starts: &mut List<Line>,
    tokens: &'a [Token],
) -> Read<'a, Stmt>
    ensures { Gives (stmt_with starts.new) result (spec.body types.now room (spec.stmt types.now around.end room around.loops around.breaks) starts.old tokens.now) }
{
    match punct_at(Punct::OpenBrace, tokens) {
        Some((line, rest)) => {
            starts.push(line)?;
            braces(alloc, types, around, room, line, starts, rest)
        }
        None => stmt(alloc, types, around, room, starts, tokens),
    }
}

// An `else` and its body, if they come next.
#[cycle(stmts)]
#[tactic(auto, unfolding(crate::specs::Read::otherwise))]
fn otherwise<'a>(
    alloc: Global,
    types: &TypeNames,
    around: Around,
    room: u32,
    starts: &mut List<Line>,
    tokens: &'a [Token],
) -> Read<'a, Option<Boxed<Stmt>>>
    ensures { Gives (other_with starts.new) result (spec.otherwise types.now room (spec.stmt types.now around.end room around.loops around.breaks) starts.old tokens.now) }
{
    match word_at(Word::Else, tokens) {
        Some((_, rest)) => {
            let (other, rest) = body(alloc, types, around, room, starts, rest)?;
            Ok((Some(Boxed::new(alloc, other)?), rest))
        }
        None => Ok((None, tokens)),
    }
}

// What comes behind `if`.
#[cycle(stmts)]
#[tactic(auto, unfolding(crate::specs::Read::choice))]
fn choice<'a>(
    alloc: Global,
    types: &TypeNames,
    around: Around,
    room: u32,
    line: Line,
    starts: &mut List<Line>,
    tokens: &'a [Token],
) -> Read<'a, Stmt>
    ensures { Gives (stmt_with starts.new) result (spec.choice types.now room (spec.stmt types.now around.end room around.loops around.breaks) line starts.old tokens.now) }
{
    let (test, rest) = test_at(alloc, types, room, tokens)?;
    let (first, rest) = body(alloc, types, around, room, starts, rest)?;
    let (second, rest) = otherwise(alloc, types, around, room, starts, rest)?;
    Ok((if_of(alloc, line, test, first, second)?, rest))
}

// What comes behind `while`.
#[cycle(stmts)]
#[tactic(auto, unfolding(crate::specs::Read::while_of))]
fn while_loop<'a>(
    alloc: Global,
    types: &TypeNames,
    around: Around,
    room: u32,
    annot: LoopAnnot,
    line: Line,
    starts: &mut List<Line>,
    tokens: &'a [Token],
) -> Read<'a, Stmt>
    ensures { Gives (stmt_with starts.new) result (spec.while_of types.now room (spec.stmt types.now around.end room around.loops around.breaks) (view_loop annot) line starts.old tokens.now) }
{
    let (test, rest) = test_at(alloc, types, room, tokens)?;
    let (inside, rest) = body(alloc, types, around, room, starts, rest)?;
    Ok((while_of(alloc, line, annot, test, inside)?, rest))
}

// What comes behind `do`.
#[cycle(stmts)]
#[tactic(auto, unfolding(crate::specs::Read::do_of))]
fn do_loop<'a>(
    alloc: Global,
    types: &TypeNames,
    around: Around,
    room: u32,
    annot: LoopAnnot,
    line: Line,
    starts: &mut List<Line>,
    tokens: &'a [Token],
) -> Read<'a, Stmt>
    ensures { Gives (stmt_with starts.new) result (spec.do_of types.now room (spec.stmt types.now around.end room around.loops around.breaks) (view_loop annot) line starts.old tokens.now) }
{
    let (inside, rest) = body(alloc, types, around, room, starts, tokens)?;
    let (test, rest) = do_end_at(alloc, types, room, rest)?;
    Ok((do_of(alloc, line, annot, inside, test)?, rest))
}

// What comes behind `for`.
#[cycle(stmts)]
#[tactic(auto, unfolding(crate::specs::Read::for_of))]
fn for_loop<'a>(
    alloc: Global,
    types: &TypeNames,
    around: Around,
    room: u32,
    annot: LoopAnnot,
    line: Line,
    starts: &mut List<Line>,
    tokens: &'a [Token],
) -> Read<'a, Stmt>
    ensures { Gives (stmt_with starts.new) result (spec.for_of types.now room (spec.stmt types.now around.end room around.loops around.breaks) (view_loop annot) line starts.old tokens.now) }
{
    let (head, rest) = head_at(alloc, types, room, tokens)?;
    let (inside, rest) = body(alloc, types, around, room, starts, rest)?;
    Ok((for_of(alloc, line, annot, head, inside)?, rest))
}

// A loop behind its annotation.
#[cycle(stmts)]
#[tactic(auto, unfolding(crate::specs::Read::looped))]
fn looped<'a>(
    alloc: Global,
    types: &TypeNames,
    around: Around,
    room: u32,
    annot: LoopAnnot,
    starts: &mut List<Line>,
    tokens: &'a [Token],
) -> Read<'a, Stmt>
    ensures { Gives (stmt_with starts.new) result (spec.looped types.now room (spec.stmt types.now around.end room true true) (view_loop annot) starts.old tokens.now) }
{
    let Some((first, rest)) = tokens.split_first() else {
        return Err(Fault::Syntax);
    };
    let inside = Around {
        end: around.end,
        loops: true,
        breaks: true,
    };
    let line = first.line;
    match form_of(&first.kind) {
        Form::While => while_loop(alloc, types, inside, room, annot, line, starts, rest),
        Form::Do => do_loop(alloc, types, inside, room, annot, line, starts, rest),
        Form::For => for_loop(alloc, types, inside, room, annot, line, starts, rest),
        _ => Err(Fault::Syntax),
    }
}

// What comes behind `switch`.
#[cycle(stmts)]
#[tactic(auto, unfolding(crate::specs::Read::switch_of))]
fn switch<'a>(
    alloc: Global,
    types: &TypeNames,
    around: Around,
    room: u32,
    line: Line,
    starts: &mut List<Line>,
    tokens: &'a [Token],
) -> Read<'a, Stmt>
    ensures { Gives (stmt_with starts.new) result (spec.switch_of types.now room (spec.stmt types.now around.end room around.loops true) line starts.old tokens.now) }
{
    let inside = Around {
        end: around.end,
        loops: around.loops,
        breaks: true,
    };
    let (value, rest) = test_at(alloc, types, room, tokens)?;
    let (_, rest) = expect(Punct::OpenBrace, rest)?;
    let ((items, _), rest) = stmts(alloc, types, inside, true, room, starts, rest)?;
    if !is_switch(items.as_slice()) {
        return Err(Fault::Syntax);
    }
    Ok((switch_of(line, value, items), rest))
}

// What comes behind the opening of an annotation.
#[cycle(stmts)]
#[tactic(auto, unfolding(crate::specs::Read::annotated))]
fn annotated<'a>(
    alloc: Global,
    types: &TypeNames,
    around: Around,
    room: u32,
    starts: &mut List<Line>,
    tokens: &'a [Token],
) -> Read<'a, Stmt>
    ensures { Gives (stmt_with starts.new) result (spec.annotated types.now around.end room (spec.stmt types.now around.end (room - 1)) starts.old tokens.now) }
{
    const ASSERT: &[u8] = b"assert";
    if keyword_at(ASSERT, tokens).is_some() {
        return assertion_at(alloc, types, room, tokens);
    }
    if room == 0 {
        return Err(Fault::Syntax);
    }
    let (annot, rest) = loop_annot_at(alloc, types, room, around.end, tokens)?;
    looped(alloc, types, around, room - 1, annot, starts, rest)
}

// The first token, whose line is one of `starts` already, tells the statements apart.
#[cycle(stmts)]
fn started<'a>(
    alloc: Global,
    types: &TypeNames,
    around: Around,
    room: u32,
    starts: &mut List<Line>,
    tokens: &'a [Token],
) -> Read<'a, Stmt>
    ensures { Gives (stmt_with starts.new) result (spec.started types.now around.end room (spec.stmt types.now around.end (room - 1)) around.loops around.breaks starts.old tokens.now) }
{
    let Some((first, rest)) = tokens.split_first() else {
        return Err(Fault::Syntax);
    };
    let line = first.line;
    match form_of(&first.kind) {
        Form::Annotated => annotated(alloc, types, around, room, starts, rest),
        Form::Block if room > 0 => braces(alloc, types, around, room - 1, line, starts, rest),
        Form::If if room > 0 => choice(alloc, types, around, room - 1, line, starts, rest),
        Form::While | Form::Do | Form::For if room > 0 => {
            looped(
                alloc,
                types,
                around,
                room - 1,
                no_annot(alloc),
                starts,
                tokens,
            )
        }
        Form::Switch if room > 0 => switch(alloc, types, around, room - 1, line, starts, rest),
        Form::Block | Form::If | Form::While | Form::Do | Form::For | Form::Switch => {
            Err(Fault::Syntax)
        }
        Form::Empty | Form::Break | Form::Continue | Form::Return | Form::Value | Form::Nothing =>
            plain_at(alloc, types, around, room, tokens),
    }
}

// A statement, with its line among those on which statements begin.
#[cycle(stmts)]
#[tactic(auto, using(crate::proofs::Turns::stmt_is, crate::proofs::Turns::stmt_starts))]
fn stmt<'a>(
    alloc: Global,
    types: &TypeNames,
    around: Around,
    room: u32,
    starts: &mut List<Line>,
    tokens: &'a [Token],
) -> Read<'a, Stmt>
    ensures { Gives (stmt_with starts.new) result (spec.stmt types.now around.end room around.loops around.breaks starts.old tokens.now) }
{
    let Some((first, _)) = tokens.split_first() else {
        return Err(Fault::Syntax);
    };
    starts.push(first.line)?;
    started(alloc, types, around, room, starts, tokens)
}
