// The text that a line of a file of cases stands for.

use crate::Page;

// A part in which "¶" stands for the end of a line.
fn put_lines(page: &mut Page, part: &str) {
    let mut rest = part;
    for _ in 0..part.len() {
        let Some((line, after)) = rest.split_once("¶") else {
            break;
        };
        page.put(line);
        page.put("\n");
        rest = after;
    }
    page.put(rest);
}

// The same, where "№" stands for this number.
fn put_numbered(page: &mut Page, part: &str, number: u32) {
    match part.split_once("№") {
        Some((before, after)) => {
            put_lines(page, before);
            page.put_number(number);
            put_lines(page, after);
        }
        None => put_lines(page, part),
    }
}

// A number, a space and what is repeated so often.
fn put_repeated(page: &mut Page, part: &str) {
    if let Some((count, link)) = part.split_once(" ") {
        let is_plain = !link.contains("¶") && !link.contains("№");
        for number in 0..count.parse::<u32>().unwrap_or(0) {
            if is_plain {
                page.put(link);
            } else {
                put_numbered(page, link, number);
            }
        }
    }
}

/// The text that a line stands for: in it "¶" is the end of a line, "«3 ab»" is "ab" three times, and "№" in that the number of the time, from 0.
pub fn put_text(page: &mut Page, line: &str) {
    let mut rest = line;
    for _ in 0..line.len() {
        let Some((plain, repeated)) = rest.split_once("«") else {
            break;
        };
        put_lines(page, plain);
        let (link, behind) = repeated.split_once("»").unwrap_or((repeated, ""));
        put_repeated(page, link);
        rest = behind;
    }
    put_lines(page, rest);
}
