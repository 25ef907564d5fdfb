//! Floor 7, command: a report of `wp`, read back from its bytes.
#![tactic(auto)]

mod bytes;
mod goals;
mod laws;
mod read;
mod report;
mod sections;

pub use bytes::{after, until};
pub use laws::{read_is_spelled, spelled_is_read};
pub use read::{ReadEnd, read_document};
pub use report::{
    Document, Goal, Refusal, Report, is_proved, proved_in, summary_text, verdict_name,
};
