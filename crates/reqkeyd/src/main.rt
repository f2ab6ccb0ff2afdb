//! `reqkeyd`, the request_key daemon.
//!
//! `reqkeyd replay` runs a script from its standard input to its standard output: what happens, line by line, and what the daemon does
//! (docs/SCRIPTS.md). `reqkeyd serve` answers a Unix socket (docs/PROTOCOL.md, man/reqkeyd.8). `reqkeyd check` and `reqkeyd pick` tell of a configuration
//! what is wrong with it, and what it would start (reqkeyd.conf(5)). `reqkeyd rejoin` tells of the files of a record whether they are a run of the
//! machine (docs/RECORD.md).
//!
//! All that it does is one call, [`run::run_words`], over the words, the streams, the process and the disk that are passed in.
//!
//! `args` is the command line, and `preview_args` the part of `check` and `pick`; `complaint` says what is wrong with a value that looks right. `showing`
//! writes what `check` and `pick` have to say, and `doubting` the warnings. `rejoining` writes what rk_rejoin says of the files of a record, which it reads by
//! the disk of the system, `system_disk`. `reason` is the second line of a fault: which file it is, and why.
#![tactic(auto)]

mod args;
mod complaint;
mod doubting;
mod preview_args;
mod reason;
mod rejoining;
mod run;
mod showing;
mod system_disk;

use std::env;
use std::io::ErrorKind;
use std::process::ExitCode;
use system_disk::SystemDisk;

fn main(rt: HostRuntime) -> ExitCode {
    let mut errors = rt.stderr();
    let words: Vec<String> = match env::args(&rt) {
        Ok(words) => match words.collect(rt.alloc()) {
            Ok(words) => words,
            Err(_) => return ExitCode::from(run::no_memory(&mut errors)),
        },
        Err(error) if error.kind() == ErrorKind::OutOfMemory => {
            return ExitCode::from(run::no_memory(&mut errors));
        }
        Err(_) => return ExitCode::from(run::usage(&mut errors)),
    };
    let (mut reader, mut writer) = (rt.stdin(), rt.stdout());
    let mut disk = SystemDisk::new(&rt);
    let status = run::run_words(
        &rt,
        &mut disk,
        words.as_slice(),
        &mut reader,
        &mut writer,
        &mut errors,
    );
    ExitCode::from(status)
}
