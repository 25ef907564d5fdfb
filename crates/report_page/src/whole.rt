// The page.
ghost use Rattle.std.specs.Prelude.{◌≡◌, ◌++◌, IfOk};
ghost use Rattle.report_page.specs.Markup.{texts};
ghost use Rattle.report_page.specs.Page as spec;
ghost use Rattle.report_page.specs.Style.{style as style_sheet};
ghost use Rattle.report_shown.specs.View.{view_goals};

use crate::details::put_details;
use crate::lines::put_source;
use crate::markup::{NEWLINE, NOTHING, Text, put_pieces};
use crate::table::put_table;
use report_read::Goal;
use report_shown::{elsewhere, lines};
use std::alloc::Global;
use wp_base::NoMemory;

const STYLE: &[u8] = b"
body{font:14px sans-serif;margin:1em}
table{border-collapse:collapse;margin:0 0 1em}
th,td{padding:0 1em 0 0;text-align:left;vertical-align:top}
td{font-family:monospace;white-space:pre-wrap}
div{width:max-content;min-width:100%}
code{font-family:monospace;white-space:pre;tab-size:8}
span{display:inline-block;width:5em;margin:0 1em 0 0;text-align:right;color:#777}
details{margin:0 0 .5em 6em}
.proved{background:#dfd}
.unknown{background:#fdd}
";

#[tactic(auto, unfolding(crate::specs::Style::style))]
fn style() -> &'static [u8]
    ensures { result.now ≡ style_sheet }
{
    STYLE
}

#[tactic(auto, unfolding(crate::specs::Page::page_head))]
fn put_head(alloc: Global, page: &mut Vec<u8>, title: &[u8]) -> Result<(), NoMemory>
    ensures { IfOk result (λ _. page.new.items ≡ page.old.items ++ texts (spec.page_head title.now)) }
{
    put_pieces(
        alloc,
        page,
        &[
            (b"!DOCTYPE html", NEWLINE),
            (b"html lang=en", NEWLINE),
            (b"head", NEWLINE),
            (b"meta charset=utf-8", NEWLINE),
            (b"title", Text::Bytes(title)),
            (b"/title", NEWLINE),
            (b"style", Text::Bytes(style())),
            (b"/style", NEWLINE),
            (b"/head", NEWLINE),
            (b"body", NEWLINE),
            (b"h1", Text::Bytes(title)),
            (b"/h1", NEWLINE),
        ],
    )
}

#[tactic(auto, unfolding(crate::specs::Page::heading))]
fn put_heading(alloc: Global, page: &mut Vec<u8>) -> Result<(), NoMemory>
    ensures { IfOk result (λ _. page.new.items ≡ page.old.items ++ texts spec.heading) }
{
    put_pieces(
        alloc,
        page,
        &[
            (b"h2", Text::Bytes(b"On no line of the source")),
            (b"/h2", NEWLINE),
        ],
    )
}

// The goals that stand on no line of the source, if there are some.
#[tactic(auto, using(crate::proofs::Counts::none_elsewhere))]
fn put_elsewhere(alloc: Global, page: &mut Vec<u8>, goals: &[Goal]) -> Result<(), NoMemory>
    ensures { IfOk result (λ _. page.new.items ≡ page.old.items ++ texts (spec.elsewhere_pieces (view_goals goals.now))) }
{
    if goals.is_empty() {
        return Ok(());
    }
    put_heading(alloc, page)?;
    put_details(alloc, page, goals)
}

#[tactic(auto, unfolding(crate::specs::Page::page_end))]
fn put_end(alloc: Global, page: &mut Vec<u8>) -> Result<(), NoMemory>
    ensures { IfOk result (λ _. page.new.items ≡ page.old.items ++ texts spec.page_end) }
{
    put_pieces(alloc, page, &[(b"/body", NEWLINE), (b"/html", NEWLINE)])
}

/// The page: a table of functions on top, then the source with its goals folded below their lines.
#[tactic(auto, unfolding(crate::specs::Page::page, crate::specs::Page::page_pieces))]
pub fn page(alloc: Global, title: &[u8], source: &[u8], goals: &[Goal]) -> Result<Vec<u8>, NoMemory>
    ensures { IfOk result (λ text. text.items ≡ spec.page title.now source.now (view_goals goals.now)) }
{
    let lines = lines(alloc, source)?;
    let others = elsewhere(alloc, lines.len(), goals)?;
    let mut page = Vec::new(alloc);
    put_head(alloc, &mut page, title)?;
    put_table(alloc, &mut page, goals)?;
    put_source(alloc, &mut page, lines.as_slice(), goals)?;
    put_elsewhere(alloc, &mut page, others.as_slice())?;
    put_end(alloc, &mut page)?;
    Ok(page)
}
