//! The program `swss`: a switch state service over a simulated chip.
#![tactic(auto)]

use std::process::ExitCode;
use std::{env, io, str};
use swss_run::{Status, StdinSource, StdoutSink, swss_main};
use swss_types::Open;

fn main(rt: HostRuntime) -> ExitCode {
    let alloc = rt.alloc();
    let words = match env::args(&rt) {
        Ok(words) => words.skip(1).collect::<Vec<String>>(alloc).ok(),
        // A word that is no text is no command.
        Err(error) if error.kind() == io::ErrorKind::InvalidData => return end(&rt, &Status::Usage),
        Err(_) => None,
    };
    let Some(words) = words else {
        return end(&rt, &Status::OutOfMemory);
    };
    let mut source = StdinSource::new(rt.stdin());
    let mut sink = StdoutSink::new(rt.stdout());
    let outcome = swss_main(&rt, alloc, &words, &mut source, &mut sink, &Open);
    end(&rt, &outcome.into_status())
}

/// Prints the line of a status to standard error, if it has one, and gives its number.
fn end(rt: &HostRuntime, status: &Status) -> ExitCode {
    if let Ok(line) = status.line(rt.alloc()) {
        if let Ok(text) = str::from_utf8(&line) {
            if !text.is_empty() {
                let _ = eprintln!(rt; "{text}");
            }
        }
    }
    ExitCode::from(status.number())
}
