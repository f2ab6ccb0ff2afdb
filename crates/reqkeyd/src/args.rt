//! The command line.
use crate::preview_args::{NUMBER, check, pick};
use clap::builder::ValueParser;
use clap::error::ErrorKind;
use clap::{Arg, ArgAction, Command, Error};
use std::alloc::{AllocError, Global};

/// The version, and the logic in which the program was proved, as `rt version` says it of every toolchain that has this logic.
const VERSION: &str = "0.2.0 (rattle logic dac8208d650f15bf)";

/// What `serve --help` says before its options.
const SERVE: &str =
    "Answers a Unix socket: keys are found, or made by the handler programs of a configuration.

If a key is missing, the program of the first line that fits it is started. A program after | gets the callout on standard input, and its output is the \
payload. Any other one speaks the daemon's protocol on its standard streams, as reqkeyctl does for a shell script. Everyone who requests the key meanwhile \
waits until it is made.

So many workers serve one connection each at a time; more connections wait, and none is lost. Keys are in memory alone and end with the daemon. The file \
of a socket that a daemon left behind is replaced; any other file is not.";

/// What `serve --help` says after its options.
const AFTER: &str =
    "Numbers have no sign. Once connections are accepted, standard error says reqkeyd: ready. It also has the log (--log): sessions that end badly, handlers \
that give no key, connections that wait or can't be accepted, and volumes of the record that can't be written. Volumes that are dropped are lines of \
their own (volume HALL INDEX STEPS). Signals are not caught: one that ends the daemon leaves the socket's file, which the next start replaces.

Example:
  echo 'create user p:* * |/bin/cat' > /tmp/reqkeyd.conf
  reqkeyd serve --socket /tmp/reqkeyd.socket --conf /tmp/reqkeyd.conf --clients 2 &
  reqkeyctl --socket /tmp/reqkeyd.socket --uid 1000 request user p:1 user hello    (prints 12, the key's serial)
  reqkeyctl --socket /tmp/reqkeyd.socket --uid 1000 read 12                        (prints hello)

Status: 0 after the connections of --clients, or at the end of standard input with --until-eof; 2 for a usage error; 1 for a configuration that can't be \
read (reqkeyd: conf) or has an invalid line (reqkeyd: conf line 3: C1), a system without random bytes (reqkeyd: random), a folder of the record that can't \
be read or has volumes (reqkeyd: record), a library that can't be read (reqkeyd: keyutils), a socket that can't be opened or is in use (reqkeyd: socket), \
or if it is out of memory or of threads (reqkeyd: memory). The next line says which file it is, and why.";

/// What looks as permission bits: octal digits read as decimal ones.
const OCTAL: ValueParser = ValueParser::Unsigned(0, 777);

/// The words of `--log`.
const LEVELS: ValueParser = ValueParser::Names(&["error", "warn", "info", "debug"]);

/// The options of `serve`, by name, value, what it has to look like, and what they are for; the first two must be there.
const OPTIONS: [(&str, &str, ValueParser, &str); 13] = [
    (
        "socket",
        "PATH",
        ValueParser::String,
        "Where the socket is made, in a folder that exists",
    ),
    (
        "conf",
        "PATH",
        ValueParser::String,
        "The configuration, read once at the start (reqkeyd.conf(5))",
    ),
    (
        "negative",
        "N",
        NUMBER,
        "For how many seconds a key is negative that its handler did not make, 0 to 4294967295 [default: 60]",
    ),
    (
        "sessions",
        "N",
        ValueParser::Unsigned(1, 64),
        "How many connections are served at a time, 1 to 64 [default: 64]",
    ),
    (
        "clients",
        "N",
        NUMBER,
        "End after so many connections, 0 to 4294967295, 0 for never [default: 0]",
    ),
    (
        "mode",
        "OCTAL",
        OCTAL,
        "The permissions of the socket's file, 0 to 777 in octal [default: 600]",
    ),
    (
        "keyutils",
        "FILE",
        ValueParser::String,
        "Have plain handlers, those without |, preload this library, so that keyutils' own programs are handlers",
    ),
    (
        "record",
        "FOLDER",
        ValueParser::String,
        "Write the volumes of the record into this folder, which exists and has none; no file is replaced (docs/RECORD.md of the sources)",
    ),
    (
        "until-eof",
        "",
        ValueParser::String,
        "End when standard input ends, as after --clients",
    ),
    (
        "idle",
        "SECONDS",
        NUMBER,
        "Close a connection on which nothing comes for so long while a request is awaited, 0 for never [default: 0]",
    ),
    (
        "log",
        "LEVEL",
        LEVELS,
        "The least important lines of the log: error, warn, info or debug [default: warn]",
    ),
    (
        "slow",
        "SECONDS",
        NUMBER,
        "Warn of a handler that has run for so long, 0 for never [default: 60]",
    ),
    (
        "status",
        "SECONDS",
        NUMBER,
        "Write a line of figures to the log so often, 0 for never [default: 0]",
    ),
];

/// How many of the options must be there.
const REQUIRED: usize = 2;

/// `serve` with its options.
fn serve<'a>(alloc: Global) -> Result<Command<'a>, AllocError> {
    let mut serve = Command::new(alloc, "serve").about(SERVE).after_help(AFTER);
    for (at, (name, value, parser, help)) in OPTIONS.iter().enumerate() {
        let option = Arg::new(alloc, name).long(name);
        let option = if value.is_empty() {
            option.action(ArgAction::SetTrue)
        } else {
            option.value_name(value).value_parser(*parser)
        };
        serve = serve.arg(option.required(at < REQUIRED).help(help))?;
    }
    Ok(serve)
}

/// What `rejoin --help` says after its words.
const REJOINED: &str =
    "The files are those of serve --record, in any order, and all of them: hall-0-volume-000001 and so on. It prints a line for each hall, and a last line.

Example:
  reqkeyd rejoin /var/log/reqkeyd/hall-*

Status: 0 (ok, 4 halls, 68000 steps: a run of the machine, to its end); 2 for a usage error; 1 for a file that can't be read or is no volume \
(reqkeyd: FILE: its step 3 is cut or bad), for volumes that make no such run (reqkeyd: hall 2, volume 1: it is missing), if it is out of memory \
(reqkeyd: memory), or if the output can't be written (reqkeyd: output).";

/// `rejoin` with its files.
fn rejoin<'a>(alloc: Global) -> Result<Command<'a>, AllocError> {
    let files = Arg::new(alloc, "files")
        .required(true)
        .num_args(1..)
        .help("The files, whose names begin with no -");
    Command::new(alloc, "rejoin")
        .about("Tells whether the volumes of a record are a run of the machine")
        .after_help(REJOINED)
        .arg(files)
}

/// What `replay --help` says before its options.
const REPLAY: &str = "Runs a script from standard input, and writes what the daemon does

A script has the events, line by line: which client sends which bytes, and how a handler runs and ends (docs/SCRIPTS.md of the sources). It is read to its \
end and played, and then the replies and the commands are written. No socket is opened, no program is started, and no clock is read. So each run writes the \
same.";

/// What `replay --help` says after its options.
const REPLAYED: &str = "Example:
  (echo 100 accept 1; echo 100 bytes 1 0000000e01000003e8000003e80000000000) | reqkeyd replay

Status: 0 if the script was run to its end; 2 for a usage error; 1 if it was not (reqkeyd: script), or if it is out of memory before it was read \
(reqkeyd: memory).";

/// What may stand on the command line.
pub fn command<'a>(alloc: Global) -> Result<Command<'a>, AllocError> {
    let replay = Command::new(alloc, "replay")
        .about(REPLAY)
        .after_help(REPLAYED);
    Command::new(alloc, "reqkeyd")
        .version(VERSION)
        .about("A user-space daemon for the construction protocol of request_key(2)")
        .subcommand_required(true)
        .disable_help_subcommand(true)
        .subcommand(replay)?
        .subcommand(serve(alloc)?)?
        .subcommand(check(alloc)?)?
        .subcommand(pick(alloc)?)?
        .subcommand(rejoin(alloc)?)
}

/// Whether nothing but memory is missing.
pub fn is_memory(error: &Error) -> bool {
    error.kind() == ErrorKind::OutOfMemory
}
