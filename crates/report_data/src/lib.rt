//! Floor 7, command: the goals of a report as data, JSON or comma-separated values.
#![tactic(auto)]

mod csv;
mod json;
mod laws;

pub use csv::csv_text;
pub use json::json_text;
pub use laws::{csv_read_back, json_read_back};
