// What the page shows.
ghost use Rattle.report_page.specs.Markup.{TextIsHarmless};
ghost use Rattle.report_page.specs.Page.{PageIsReadBack, SourceIsWhole};

/// No angle bracket and no quotation mark stands in a text that is escaped.
pub fn text_is_harmless()
    ensures { TextIsHarmless }
{}

/// The page is its pieces: each tag in it is one of the page's own.
pub fn page_is_read_back()
    ensures { PageIsReadBack }
{}

/// The page shows the lines of the source, all of them and no others, in order.
pub fn source_is_whole()
    ensures { SourceIsWhole }
{}
