//! Floor 7, command: from the bytes of a text to its report, or to its one fault.
#![tactic(auto)]

mod texts;
mod trees;

pub use file_reports::FileReport;
pub use texts::report_text;
