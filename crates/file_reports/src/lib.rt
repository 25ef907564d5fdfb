//! Floor 7, command: the report of a typed file with its annotations.
#![tactic(auto)]

mod bases;
mod bodies;
mod files;
mod judges;
mod pages;
mod reports;

pub use files::report_file;
pub use reports::FileReport;
