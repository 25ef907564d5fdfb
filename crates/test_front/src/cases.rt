// The file of cases: headings and texts, a line each.

use c_grammar::TypeNames;
use std::alloc::Global;
use test_lines::{Page, put_text};
use wp_base::{NoMemory, Str};

/// What is asked of the texts below a heading.
#[derive(Clone, Copy)]
pub struct Heading<'a> {
    /// The name of the call.
    pub reader: &'a str,
    /// A typedef name, or the name that is looked for; empty where there is none.
    pub word: &'a str,
    /// How many forms may open, one in another.
    pub room: u32,
    /// The place of the first token that is read.
    pub place: u32,
}

// The first word of a line, and those behind it.
fn first_word(line: &str) -> (&str, &str) {
    line.split_once(" ").unwrap_or((line, ""))
}

fn number_of(word: &str) -> u32 {
    word.parse::<u32>().unwrap_or(0)
}

impl<'a> Heading<'a> {
    /// The heading of a line: the call, then a name, the room and the place, where they are given.
    pub fn of(line: &'a str) -> Heading<'a> {
        let (reader, rest) = first_word(line);
        let (name, behind) = first_word(rest);
        let is_number = name.parse::<u32>().is_ok();
        let (word, numbers) = if is_number {
            ("", rest)
        } else {
            (name, behind)
        };
        let (room, place) = first_word(numbers);
        Heading {
            reader,
            word,
            room: number_of(room),
            place: number_of(place),
        }
    }

    /// The typedef names.
    pub fn types(&self, alloc: Global) -> Result<TypeNames, NoMemory> {
        let mut types = TypeNames::new(alloc);
        if !self.word.is_empty() {
            types.declare(alloc, Str::from_bytes(alloc, self.word.as_bytes())?)?;
        }
        Ok(types)
    }

    /// What stands before and behind each of the texts.
    pub fn frame(&self) -> (&'static str, &'static str) {
        match self.reader {
            "return" => ("int f(void) { return ", "; }"),
            "body" => ("int f() { ", " }"),
            "term" => ("/*@ logic integer t = ", "; */"),
            "predicate" => ("/*@ predicate p = ", "; */"),
            "contract" => ("/*@ ", " */ int f(void);"),
            "term_at" | "entry_at" | "pointer_at" | "chain_term_at" | "some_terms_at" => (
                "/*@ ", " */",
            ),
            "begins_chain" | "past_at" | "pred_at" | "logic_type_at" | "typed_at" => (
                "/*@ ", " */",
            ),
            "contract_at" | "loop_at" | "assert_at" | "logic_at" | "logics_at" => ("/*@ ", " */"),
            _ => ("", ""),
        }
    }
}

/// The text that a line stands for, in the frame of its heading.
pub fn text_of(alloc: Global, heading: &Heading<'_>, line: &str) -> Result<Vec<u8>, NoMemory> {
    let (before, after) = heading.frame();
    let mut page = Page::new(alloc);
    page.put(before);
    put_text(&mut page, line);
    page.put(after);
    page.into_text()
}
