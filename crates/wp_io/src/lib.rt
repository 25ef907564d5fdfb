//! Floor 0, ground: the outside of the programs: files that are read by name and a sink that is written to, each
//! with a count of its faults, the two calls that read and write whole texts, and the words that a program is called with.
//!
//! There are three forms of each: in memory, failing where they are told to; still, which never
//! fail; and the real files and standard output.
#![tactic(auto)]

mod counts;
mod files;
mod in_memory;
mod pieces;
mod reading;
mod real;
mod sink;
mod still;
mod words;
mod writing;

pub use files::{Failed, Files};
pub use in_memory::{MemFiles, MemSink};
pub use reading::{ReadEnd, read_all};
pub use real::{RealFiles, RealSink};
pub use sink::Sink;
pub use still::{StillFiles, StillSink};
pub use words::command_words;
pub use writing::{WriteFault, write_all};
