//! Floor 7, command: the program `wpgoal`: reads formulas, one a line, in the text that goals have, and writes the verdict on each, or its normal form.
//! All that it does is `wpgoal_main`; here are the runtime and the status.
#![tactic(auto)]

use std::process::ExitCode;
use wp_base::Status;
use wp_io::{RealFiles, RealSink, command_words};
use wpgoal_cli::wpgoal_main;

fn run(rt: HostRuntime) -> Status {
    match command_words(&rt) {
        Ok(words) => {
            let mut files = RealFiles::new(rt);
            let mut out = RealSink::new(rt);
            wpgoal_main(rt.alloc(), words.as_slice(), &mut files, &mut out)
        }
        Err(status) => status,
    }
}

// What is said on standard error.
fn text_of(status: Status) -> &'static str {
    match status {
        Status::AllProved | Status::SomeUnknown | Status::Refused => "",
        Status::Usage =>
            "usage: wpgoal --normal FILE, or wpgoal [--machdep NAME] [--fuel N] [--branches N] [--goals] FILE",
        Status::ReadFault => "wpgoal: cannot read",
        Status::WriteFault => "wpgoal: cannot write",
        Status::NoMemory => "wpgoal: out of memory",
    }
}

fn main(rt: HostRuntime) -> ExitCode {
    let status = run(rt);
    let text = text_of(status);
    if !text.is_empty() {
        // Where standard error is closed too, the status says it alone.
        let _ = eprintln!(rt; "{text}");
    }
    ExitCode::from(status.code())
}
