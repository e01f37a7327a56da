//! `b2`: digests, scripts, transcripts and witnesses of BLAKE2b and BLAKE2s, roots of trees, and
//! outputs of BLAKE2X.

#![tactic(auto)]

use b2_commands::{Fault, run_with_notes};
use blake2::streams::{IoSink, IoSource};
use std::process::ExitCode;
use std::rt::Env;
use std::{env, io};

fn main(rt: HostRuntime) -> ExitCode {
    let mut source = IoSource::new(rt.stdin());
    let mut sink = IoSink::new(rt.stdout());
    let mut notes = IoSink::new(rt.stderr());
    let status = match arguments(&rt) {
        Ok(words) => {
            let words = words.as_slice();
            run_with_notes(rt.alloc(), words, &mut source, &mut sink, &mut notes)
        }
        Err(_) => Fault::NoMemory.report(&mut sink),
    };
    ExitCode::from(status)
}

// Returns the arguments without the program's name. The error is that of `env::args`, or of an
// allocation that fails.
fn arguments(rt: &(impl Env + AllocGlobal)) -> io::Result<Vec<String>> {
    Ok(env::args(rt)?.skip(1).collect(rt.alloc())?)
}
