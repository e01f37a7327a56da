//! `b2sum`: digests of files by BLAKE2b and BLAKE2s, and the check of manifests.

#![tactic(auto)]

mod disk;
mod hashes;
mod lanes;
mod states;

use b2sum_commands::{Host, Program, Session, run};
use blake2::streams::write_whole;
use disk::{Opened, System, Writer};
use hashes::Blake2;
use std::alloc::{AllocError, Global};
use std::env::FillError;
use std::io::Write;
use std::process::ExitCode;
use std::rt::Env;

// The number of bytes that are tried first for an argument.
const USUAL_ARGUMENT: usize = 256;

fn main(rt: HostRuntime) -> ExitCode {
    let Ok(program) = program(&rt, rt.alloc()) else {
        return report_exhausted_memory(rt.stderr(), b"b2sum");
    };
    let output = Writer::new(rt.stdout());
    let messages = Writer::new(rt.stderr());
    let Ok(input) = Opened::input(rt.alloc(), rt.stdin()) else {
        return report_exhausted_memory(rt.stderr(), program.name.as_slice());
    };
    let session = Session::new(rt.alloc(), input, output, messages);
    let words = arguments(&rt, rt.alloc());
    match (session, words) {
        (Ok(mut session), Ok(words)) => {
            let host = Host {
                program,
                hashes: Blake2,
                disk: System { files: &rt },
            };
            ExitCode::from(run(&host, &mut session, words.as_slice()))
        }
        _ => report_exhausted_memory(rt.stderr(), program.name.as_slice()),
    }
}

// Prints that an allocation failed, in a message of the program of this name. Returns the status.
fn report_exhausted_memory(messages: impl Write + Drop, name: &[u8]) -> ExitCode {
    let mut messages = Writer::new(messages);
    if write_whole(&mut messages, name).is_ok() {
        let _ = write_whole(&mut messages, b": memory exhausted\n");
    }
    ExitCode::from(1)
}

// Returns the program, by argument 0. If there is none, it has the usual name.
fn program(env: &impl Env, alloc: Global) -> Result<Program, AllocError> {
    match argument(env, alloc, 0)? {
        Some(path) => Program::new(alloc, path.as_slice()),
        None => Program::new(alloc, b""),
    }
}

// Returns the arguments without the program's name, as bytes.
fn arguments(env: &impl Env, alloc: Global) -> Result<Vec<Vec<u8>>, AllocError> {
    let mut words = Vec::new(alloc);
    for i in 1..usize::MAX {
        let Some(word) = argument(env, alloc, i)? else {
            break;
        };
        words.push(word).map_err(|_| AllocError)?;
    }
    Ok(words)
}

// Returns this argument, or `None` if there are not so many.
fn argument(env: &impl Env, alloc: Global, i: usize) -> Result<Option<Vec<u8>>, AllocError> {
    let mut size = USUAL_ARGUMENT;
    for _ in 0..usize::BITS {
        let mut buffer = vec![in alloc; 0u8; size]?;
        match env.arg(i, buffer.as_mut_slice()) {
            Ok(length) => {
                let mut word = Vec::new(alloc);
                word.extend_from_slice(&buffer.as_slice()[..length])?;
                return Ok(Some(word));
            }
            Err(FillError::NotPresent) => return Ok(None),
            Err(FillError::TooLong) => size = size.saturating_mul(2),
        }
    }
    Err(AllocError)
}
