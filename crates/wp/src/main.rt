//! Floor 7, command: the program `wp`: reads one preprocessed C file with ACSL annotations, proves its goals and
//! prints a report. All that it does is `wp_main`; here are the runtime and the status.
#![tactic(auto)]

use std::process::ExitCode;
use wp_base::Status;
use wp_cli::wp_main;
use wp_io::{RealFiles, RealSink, command_words};

fn run(rt: HostRuntime) -> Status {
    match command_words(&rt) {
        Ok(words) => {
            let mut files = RealFiles::new(rt);
            let mut out = RealSink::new(rt);
            wp_main(rt.alloc(), words.as_slice(), &mut files, &mut out)
        }
        Err(status) => status,
    }
}

// What is said on standard error.
fn text_of(status: Status) -> &'static str {
    match status {
        Status::Usage => { "usage: wp [--machdep NAME] [--fuel N] [--branches N] [--goals] FILE" }
        Status::AllProved
        | Status::SomeUnknown
        | Status::Refused
        | Status::ReadFault
        | Status::WriteFault
        | Status::NoMemory => status.text(),
    }
}

fn main(rt: HostRuntime) -> ExitCode {
    let status = run(rt);
    let text = text_of(status);
    if !text.is_empty() {
        // Where standard error is closed too, the status says it alone.
        let _ = eprintln!(rt; "{text}");
    }
    ExitCode::from(status.code())
}
