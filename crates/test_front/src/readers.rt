// The calls that read at the front of some tokens.

use crate::cases::Heading;
use crate::told::{tell, tell_found, tell_left, tell_whether};
use acsl_parser::{assert_at, contract_at, logic_at, logics_at, loop_at};
use c_grammar::{
    Fault, TypeNames, expect, is_type, keyword_at, name_at, new_name_at, punct_at, word_at,
};
use c_syntax::{CType, Punct, Token, Word};
use parse_decls::{
    declarator_at, enumerators_at, fields_at, linkage_at, params_at, variables_after, variables_at,
};
use parse_exprs::{cond_at, expr_at};
use parse_preds::{ends_pred, logic_type_at, pred_at, typed_at};
use parse_stmts::block_at;
use parse_terms::{
    begins_chain, chain_term_at, continues, entry_at, past_at, pointer_at, some_terms_at, term_at,
};
use parse_types::{stars_at, starts_type, type_at, type_name_at};
use std::alloc::Global;
use test_lines::Page;
use wp_base::Kind;

// The most forms that may open, one in another.
const MOST_ROOM: u32 = 200;

const INT: CType = CType::Kind(Kind::Int);

// A type and the stars behind it, with `const` among them.
fn starred_at<'a>(
    alloc: Global,
    types: &TypeNames,
    tokens: &'a [Token],
) -> Result<(CType, &'a [Token]), Fault> {
    let (base, rest) = type_at(alloc, types, tokens)?;
    stars_at(alloc, true, base, rest)
}

/// Names and types; whether there is such a call.
pub fn reads_type(
    alloc: Global,
    page: &mut Page,
    reader: &str,
    types: &TypeNames,
    tokens: &[Token],
) -> bool {
    match reader {
        "name_at" => tell(page, name_at(alloc, tokens)),
        "new_name_at" => tell(page, new_name_at(alloc, types, tokens)),
        "starts_type" => tell_whether(page, starts_type(types, tokens)),
        "type_name_at" => tell(page, type_name_at(alloc, types, tokens)),
        "type_at" => tell(page, type_at(alloc, types, tokens)),
        "starred_at" => tell(page, starred_at(alloc, types, tokens)),
        _ => return false,
    }
    true
}

// Whether a name is among those that are given.
fn is_declared(types: &TypeNames, tokens: &[Token]) -> bool {
    match tokens.split_first() {
        Some((first, _)) => match &first.kind {
            c_syntax::TokenKind::Name(name) => is_type(types, name),
            _ => false,
        },
        None => false,
    }
}

/// A single token that is looked for; whether there is such a call.
pub fn finds_token(
    page: &mut Page,
    heading: &Heading<'_>,
    types: &TypeNames,
    tokens: &[Token],
) -> bool {
    match heading.reader {
        "keyword_at" => tell_found(page, keyword_at(heading.word.as_bytes(), tokens)),
        "punct_at_semicolon" => tell_found(page, punct_at(Punct::Semicolon, tokens)),
        "expect_semicolon" => tell(page, expect(Punct::Semicolon, tokens)),
        "expect_comma" => tell(page, expect(Punct::Comma, tokens)),
        "word_at_int" => tell_found(page, word_at(Word::Int, tokens)),
        "word_at_char" => tell_found(page, word_at(Word::Char, tokens)),
        "is_type" => tell_whether(page, is_declared(types, tokens)),
        _ => return false,
    }
    true
}

/// Expressions, declarations and statements; whether there is such a call.
pub fn reads_code(
    alloc: Global,
    page: &mut Page,
    reader: &str,
    room: u32,
    types: &TypeNames,
    tokens: &[Token],
) -> bool {
    if room > MOST_ROOM {
        return false;
    }
    match reader {
        "expr_at" => tell(page, expr_at(alloc, types, room, tokens)),
        "cond_at" => tell(page, cond_at(alloc, types, room, tokens)),
        "variables_at" => tell(page, variables_at(alloc, types, room, tokens)),
        "variables_after_int" => tell(page, variables_after(alloc, types, room, &INT, tokens)),
        "params_at" => tell(page, params_at(alloc, types, room, tokens)),
        "fields_at" => tell(page, fields_at(alloc, types, room, tokens)),
        "enumerators_at" => tell(page, enumerators_at(alloc, types, room, tokens)),
        "linkage_at" => tell_left(page, linkage_at(tokens)),
        "declarator_at" => {
            let rest = linkage_at(tokens);
            tell(page, declarator_at(alloc, types, room, INT, rest))
        }
        "block_at" => tell(page, block_at(alloc, types, tokens.len(), tokens)),
        _ => return false,
    }
    true
}

// What stands behind a bracket, and how it goes on.
fn tell_past(page: &mut Page, tokens: &[Token]) {
    match past_at(tokens) {
        Some((found, rest)) => {
            tell_whether(page, found);
            tell_whether(page, continues(rest));
            tell_whether(page, ends_pred(rest));
            tell_left(page, rest);
        }
        None => page.put(" none"),
    }
}

/// Terms and predicates; whether there is such a call.
pub fn reads_logic(
    alloc: Global,
    page: &mut Page,
    reader: &str,
    room: u32,
    types: &TypeNames,
    tokens: &[Token],
) -> bool {
    if room > MOST_ROOM {
        return false;
    }
    match reader {
        "term_at" => tell(page, term_at(alloc, types, room, tokens)),
        "entry_at" => tell(page, entry_at(alloc, types, room, tokens)),
        "pointer_at" => tell(page, pointer_at(alloc, types, room, tokens)),
        "chain_term_at" => tell(page, chain_term_at(alloc, types, room, tokens)),
        "some_terms_at" => tell(page, some_terms_at(alloc, types, room, tokens)),
        "begins_chain" => tell_whether(page, begins_chain(types, tokens)),
        "past_at" => tell_past(page, tokens),
        "pred_at" => tell(page, pred_at(alloc, types, room, tokens)),
        "logic_type_at" => tell(page, logic_type_at(alloc, types, tokens)),
        "typed_at" => tell(page, typed_at(alloc, types, tokens)),
        "assert_at" => tell(page, assert_at(alloc, types, room, tokens)),
        "logic_at" => tell(page, logic_at(alloc, types, tokens)),
        "logics_at" => tell(page, logics_at(alloc, types, tokens)),
        _ => return false,
    }
    true
}

/// Contracts and annotations of loops behind the first token; whether there is such a call.
pub fn reads_clauses(
    alloc: Global,
    page: &mut Page,
    reader: &str,
    room: u32,
    types: &TypeNames,
    tokens: &[Token],
) -> bool {
    let Some((_, here)) = tokens.split_first() else {
        return false;
    };
    match reader {
        "contract_at" => tell(page, contract_at(alloc, types, tokens.len(), here)),
        "loop_at" if room <= MOST_ROOM => {
            tell(page, loop_at(alloc, types, room, tokens.len(), here))
        }
        _ => return false,
    }
    true
}
