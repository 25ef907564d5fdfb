// The source is in its view.
ghost use Rattle.view_text.specs.Whole.{SourceIsWhole};

/// With the added lines taken away, the source is there whole.
pub fn source_is_whole()
    ensures { SourceIsWhole }
{}
