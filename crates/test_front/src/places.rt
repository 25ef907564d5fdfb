// The calls that read an annotation at a place of a whole list of tokens.

use crate::cases::Heading;
use crate::told::{Shown, tell_stop};
use acsl_parser::{parse_assert, parse_contract, parse_global, parse_loop};
use c_grammar::TypeNames;
use c_syntax::Token;
use std::alloc::Global;
use test_lines::Page;
use wp_base::{List, Stop};

// The tree, and the place behind it.
fn tell_placed<T: Shown + Drop>(page: &mut Page, answer: Result<(T, usize), Stop>) {
    match answer {
        Ok((found, end)) => {
            found.show(page);
            page.put(", up to ");
            page.put_number(end);
        }
        Err(stop) => tell_stop(page, stop),
    }
}

/// Whether there is such a call.
pub fn reads_place(
    alloc: Global,
    page: &mut Page,
    heading: &Heading<'_>,
    types: &TypeNames,
    tokens: &List<Token>,
) -> bool {
    let place = heading.place as usize;
    let depth = heading.room;
    if place >= tokens.len() || depth > 200 {
        return false;
    }
    match heading.reader {
        "parse_contract" => tell_placed(page, parse_contract(alloc, tokens, types, place)),
        "parse_loop" => tell_placed(page, parse_loop(alloc, tokens, types, depth, place)),
        "parse_assert" => tell_placed(page, parse_assert(alloc, tokens, types, depth, place)),
        "parse_global" => tell_placed(page, parse_global(alloc, tokens, types, place)),
        _ => return false,
    }
    true
}
