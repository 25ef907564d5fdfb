// The lines of a text are the text.
ghost use Rattle.report_shown.specs.Source.{LinesAreTheText};

/// The lines of a text, each with a newline, are the text, and at most one newline more at its end.
pub fn lines_are_the_text()
    ensures { LinesAreTheText }
{}
