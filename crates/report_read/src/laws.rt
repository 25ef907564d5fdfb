// Reading is the inverse of the definition of the report.
ghost use Rattle.report_read.specs.Read.{ReadIsSpelled, SpelledIsRead};

/// What is read, spelled, is the text.
pub fn read_is_spelled()
    ensures { ReadIsSpelled }
{}

/// Each report and each refusal, spelled, is read back.
pub fn spelled_is_read()
    ensures { SpelledIsRead }
{}
