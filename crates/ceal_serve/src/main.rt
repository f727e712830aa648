//! The program that answers each line of a script when it is complete.
#![tactic(auto)]

mod conversation;
mod laws;
mod lines;
mod replies;
mod scripted;
mod serve;
mod source;
mod top;
mod trouble;

use crate::conversation::Streams;
use crate::top::{serve_main, status_line};
use ceal_cli::{Status, status_number};
use ceal_io::{StdSink, StdSource};
use std::process::ExitCode;
use std::random::RandomSource;
use std::{env, io};

fn main(rt: HostRuntime) -> ExitCode {
    let status = run(&rt);
    let line = status_line(status);
    let _ = rt.eprint(line);
    ExitCode::from(status_number(status))
}

// Carries out the words of the command line.
fn run(rt: &HostRuntime) -> Status {
    let mut all = match env::args(rt) {
        Ok(all) => all,
        Err(error) if error.kind() == io::ErrorKind::OutOfMemory => return Status::Memory,
        Err(_) => return Status::Usage,
    };
    let _ = all.next();
    let Ok(words) = all.collect::<Vec<String>>(rt.alloc()) else {
        return Status::Memory;
    };
    let source = StdSource::new(rt.reader());
    let sink = StdSink::new(io::writer(rt));
    let mut talk = Streams::new(source, sink);
    serve_main(rt.alloc(), words, salt(rt), &mut talk)
}

// Random bytes of the system, if it gives any.
fn salt(rt: &HostRuntime) -> Option<[u8; 32]> {
    let mut bytes = [0; 32];
    match rt.fill_bytes(&mut bytes) {
        Ok(()) => Some(bytes),
        Err(_) => None,
    }
}
