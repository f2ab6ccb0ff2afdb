//! `reqkeyctl`, which asks the daemon for one thing, from a shell.
//!
//! All that it does is one call of the library `rk_ctl`, [`rk_ctl::run_words`], over the words and streams of a process, and the host and the daemon of the
//! system. That call's contract has what the program promises. Here stands what the system has, and no contract can speak of: `process` says what the
//! environment and the streams lead to, and `sockets` is how a daemon is reached, over a `connection` that waits until a `deadline`.
#![tactic(auto)]

mod connection;
mod deadline;
mod process;
mod sockets;

use process::look_around;
use rk_ctl::{Invocation, Streams, no_memory, not_text, run_words};
use rk_run::System;
use sockets::Sockets;
use std::env;
use std::io::ErrorKind;
use std::process::ExitCode;

fn main(rt: HostRuntime) -> ExitCode {
    let mut errors = rt.stderr();
    let words: Vec<String> = match env::args(&rt) {
        Ok(words) => match words.collect(rt.alloc()) {
            Ok(words) => words,
            Err(_) => return ExitCode::from(no_memory(&mut errors)),
        },
        Err(error) if error.kind() == ErrorKind::OutOfMemory => {
            return ExitCode::from(no_memory(&mut errors));
        }
        Err(_) => return ExitCode::from(not_text(&mut errors)),
    };
    let Ok(around) = look_around(&rt) else {
        return ExitCode::from(no_memory(&mut errors));
    };
    let mut host = System::new(&rt, rt.alloc());
    let mut daemon = Sockets::new(&rt, rt.alloc());
    let invocation = Invocation {
        words: words.as_slice(),
        around: &around,
    };
    let mut streams = Streams {
        reader: rt.stdin(),
        writer: rt.stdout(),
        errors,
    };
    ExitCode::from(run_words(&rt, &mut host, &mut daemon, invocation, &mut streams))
}
