//! Floor 7, command: the program `wpview`: reads a source and the report that `wp` wrote for it, and writes a view of them.
//! All that it does is `view_main`; here are the runtime, the status, and what is said of names that the report hasn't.
#![tactic(auto)]

use report_view::{Ended, view_main};
use std::process::ExitCode;
use std::str::from_utf8;
use wp_base::{Status, Str};
use wp_io::{RealFiles, RealSink, command_words};

const USAGE: &str =
    "usage: wpview [--fct NAME] [--check NAME] [--only unknown|proved] [--text|--html|--json|--csv] [--color] FILE REPORT";

fn run(rt: HostRuntime) -> Ended {
    let alloc = rt.alloc();
    match command_words(&rt) {
        Ok(words) => {
            let mut files = RealFiles::new(rt);
            let mut out = RealSink::new(rt);
            view_main(alloc, words.as_slice(), &mut files, &mut out)
        }
        Err(status) => Ended {
            status,
            said: Str::from_vec(Vec::new(alloc)),
        },
    }
}

// What is said on standard error where no name is.
fn text_of(status: Status) -> &'static str {
    match status {
        Status::AllProved | Status::SomeUnknown | Status::Refused => "",
        Status::Usage => USAGE,
        Status::ReadFault => "wpview: cannot read",
        Status::WriteFault => "wpview: cannot write",
        Status::NoMemory => "wpview: out of memory",
    }
}

// What is said on standard error.
fn said_by(ended: &Ended) -> &str {
    let said = ended.said.bytes();
    if said.is_empty() {
        return text_of(ended.status);
    }
    // A report may name what isn't UTF-8.
    from_utf8(said).unwrap_or("wpview: the report hasn't that name")
}

fn main(rt: HostRuntime) -> ExitCode {
    let ended = run(rt);
    let text = said_by(&ended);
    if !text.is_empty() {
        // Where standard error is closed too, the status says it alone.
        let _ = eprintln!(rt; "{text}");
    }
    ExitCode::from(ended.status.code())
}
