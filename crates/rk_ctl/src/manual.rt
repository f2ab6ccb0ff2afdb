//! The manual: what the program takes. `--help` shows it, and words are compared with it.

use crate::call::Call;
use clap::builder::ValueParser;
use clap::{Arg, ArgAction, Command, Error};
use rk_message::{AskShape, FieldKind, Op};
use rk_names::Errno;
use std::alloc::{AllocError, Global};

/// The version, and the logic in which the program was proved, as `rt version` says it of every toolchain that has this logic.
const VERSION: &str = "0.2.0 (rattle logic dac8208d650f15bf)";

/// What `--help` says before its lists.
const ABOUT: &str = "Sends one request to a request_key daemon, and prints the reply.

With --socket it is a client: it connects, says for whom it acts (HELLO), sends the request, and prints the reply on standard output. Without --socket, \
REQKEYD_SOCKET of the environment names the socket.

Without a socket it is the tool of a handler that the daemon has started: it writes the request to standard output, reads exactly its reply from standard \
input, and prints it on standard error. What only a handler asks (assume, instantiate, negate, reject, default, callout) it asks so between two pipes, \
whatever the environment has.

Options stand before the command, and all words after the command are its arguments. But run starts a program, and its options stand after it.";

/// What `--help` says after its lists, before the arguments.
const AFTER: &str =
    "A reply is printed as a number, as bytes, or as the serials of the thread, process, session and user ring (0 for none). A newline follows.

Examples:
  reqkeyctl --socket S --uid 1000 request user mykey user hello    find a key, or have it made; prints its serial
  reqkeyctl --socket S --uid 1000 read 12                          print its payload
  reqkeyctl assume 12                                              in a handler: assume the authority over its key
  reqkeyctl --payload-from FILE instantiate 12 none                in a handler: give the key the bytes of a file
  reqkeyctl run --socket S -- keyctl request2 user mykey hello     run keyutils' keyctl on the daemon's keys

Status:
  0  the reply was printed
  1  a refusal (errno N on standard error); the daemon can't be reached or sends no reply (reqkeyctl: socket); a file can't be used (reqkeyctl: file); \
the reply can't be printed (reqkeyctl: output); or out of memory (reqkeyctl: memory)
  2  a usage error

A number has digits alone. A payload or callout - is that one byte.

Arguments:";

/// What `run --help` says before its lists.
const RUN: &str = "Run a program whose calls of keyutils the daemon answers, in a new session ring";

/// What `run --help` says after its lists.
const AFTER_RUN: &str =
    "keyutils' programs, such as keyctl, reach the daemon by a library that is preloaded. The program and all that it starts share one session ring, which \
lasts until the program has ended. The program gets the standard streams, and the caller's environment with LD_PRELOAD, REQKEYD_SOCKET and REQKEYD_JOIN.

With --trap, reqkey-trap starts the program: the daemon answers the system calls of any program, each process for its own user.

Example:
  reqkeyctl run --socket S -- sh -c 'id=$(keyctl request2 user mykey hello) && keyctl print $id'

Status: that of the program, or 128 and the number of the signal that killed it. 127 if there is no such program, and 126 if it can't be started \
(reqkeyctl: program). 1 for a refusal (errno N on standard error), a daemon that can't be reached (reqkeyctl: socket), a library or reqkey-trap that \
can't be read (reqkeyctl: file), or out of memory (reqkeyctl: memory); and if the system does not say how the program has ended (reqkeyctl: program). \
2 for a usage error.";

/// Any text.
const TEXT: ValueParser = ValueParser::String;

/// A number of 32 bits.
const NUMBER: ValueParser = ValueParser::Unsigned(0, 4_294_967_295);

/// The serial of a ring, or 0.
const RING: ValueParser = ValueParser::Unsigned(0, 2_147_483_647);

/// An option: its name, what its value is called and has to look like, and what it is for.
type Described = (
    &'static str,
    &'static str,
    ValueParser<'static>,
    &'static str,
);

/// The options of `run`.
const RUN_OPTIONS: [Described; 4] = [
    (
        "socket",
        "PATH",
        TEXT,
        "The socket of the daemon [default: REQKEYD_SOCKET of the environment]",
    ),
    (
        "uid",
        "N",
        NUMBER,
        "The user to act for [default: the caller]",
    ),
    (
        "gid",
        "N",
        NUMBER,
        "The group to act for [default: that of the caller]",
    ),
    (
        "library",
        "FILE",
        TEXT,
        "The library that is preloaded, an absolute path [default: the one that is installed]",
    ),
];

/// The commands that look for keys.
const SEARCHES: [(&str, &str); 2] = [
    (
        "list",
        "List the keys in the user ring, each with its serial and what describe prints",
    ),
    (
        "sweep",
        "Unlink from the user ring what is negative, has expired or was revoked, and print how many",
    ),
];

/// The fields that arguments stand for.
const ARGUMENTS: [FieldKind; 9] = [
    FieldKind::Key,
    FieldKind::Ring,
    FieldKind::Setting,
    FieldKind::Seconds,
    FieldKind::Error,
    FieldKind::Type,
    FieldKind::Description,
    FieldKind::Payload,
    FieldKind::Callout,
];

/// What the manual finds of the words: what was asked for or is wrong, if anything.
pub fn fault_of_words(alloc: Global, words: &[String]) -> Result<Option<Error>, AllocError> {
    fault_in(alloc, words, None)
}

/// What the manual finds wrong with the arguments of a call, if anything.
pub fn fault_of_arguments(alloc: Global, call: &Call<'_>) -> Result<Option<Error>, AllocError> {
    let words = plain_words(alloc, call)?;
    fault_in(alloc, words.as_slice(), field_from_file(call))
}

/// The words of a call without its options. The arguments stand after `--`, so that none is taken for an option.
fn plain_words(alloc: Global, call: &Call<'_>) -> Result<Vec<String>, AllocError> {
    let mut words = Vec::new(alloc);
    words.push(String::from_str(alloc, "reqkeyctl")?)?;
    words.push(call.op.shape().name.to_ascii_lowercase(alloc)?)?;
    words.push(String::from_str(alloc, "--")?)?;
    for argument in call.arguments {
        words.push(argument.clone()?)?;
    }
    Ok(words)
}

/// The field for which a file stands, if one does.
fn field_from_file(call: &Call<'_>) -> Option<FieldKind> {
    match (call.options.payload_from, call.options.callout_from) {
        (Some(_), _) => Some(FieldKind::Payload),
        (None, Some(_)) => Some(FieldKind::Callout),
        (None, None) => None,
    }
}

/// What the manual finds of the words, where this field is no argument.
fn fault_in(
    alloc: Global,
    words: &[String],
    without: Option<FieldKind>,
) -> Result<Option<Error>, AllocError> {
    let names = names(alloc)?;
    let after = after(alloc)?;
    let command = command(alloc, names.as_slice(), after.as_str(), without)?;
    match command.try_get_matches_from(words) {
        Ok(_) => Ok(None),
        Err(error) => Ok(Some(error)),
    }
}

/// The names of the table's asks in lower case.
fn names(alloc: Global) -> Result<Vec<String>, AllocError> {
    let mut names = Vec::new(alloc);
    for shape in AskShape::all() {
        names.push(shape.name.to_ascii_lowercase(alloc)?)?;
    }
    Ok(names)
}

/// The end of the manual, with each argument and each error that the daemon returns.
fn after(alloc: Global) -> Result<String, AllocError> {
    let mut text = AFTER.to_string(alloc)?;
    for kind in &ARGUMENTS {
        let (name, meaning) = (kind.name(), meaning(*kind));
        text.push_str(format!(in alloc; "\n  {name:<12} {meaning}")?.as_str())?;
    }
    text.push_str("\n\nErrors:")?;
    for number in 0..=u8::MAX {
        if let Some(errno) = Errno::from_number(number) {
            text.push_str(format!(in alloc; "\n  {number:>3} {}", errno.name())?.as_str())?;
        }
    }
    Ok(text)
}

/// The command line: options, a subcommand for each ask of the table, and `run`.
fn command<'a>(
    alloc: Global,
    names: &'a [String],
    after: &'a str,
    without: Option<FieldKind>,
) -> Result<Command<'a>, AllocError> {
    let mut command = top(alloc, after)?;
    for (shape, name) in AskShape::all().iter().zip(names) {
        command = command.subcommand(subcommand(alloc, shape, name.as_str(), without)?)?;
    }
    for (name, about) in SEARCHES {
        command = command.subcommand(Command::new(alloc, name).about(about))?;
    }
    command.subcommand(run(alloc)?)
}

/// The program with its options.
fn top<'a>(alloc: Global, after: &'a str) -> Result<Command<'a>, AllocError> {
    let top = Command::new(alloc, "reqkeyctl")
        .version(VERSION)
        .about(ABOUT)
        .after_help(after)
        .subcommand_required(true)
        .disable_help_subcommand(true);
    let raw = Arg::new(alloc, "raw")
        .long("raw")
        .action(ArgAction::SetTrue);
    let quiet = Arg::new(alloc, "quiet")
        .long("quiet")
        .action(ArgAction::SetTrue);
    with_options(alloc, top, &OPTIONS)?
        .arg(raw.help("Print the bytes of a reply as they are, without a newline"))?
        .arg(quiet.help("Print no reply, except for a refusal"))
}

/// `run` with its options, and the program after `--`.
fn run<'a>(alloc: Global) -> Result<Command<'a>, AllocError> {
    let run = Command::new(alloc, "run").about(RUN).after_help(AFTER_RUN);
    let trap = Arg::new(alloc, "trap")
        .long("trap")
        .action(ArgAction::SetTrue)
        .conflicts_with("uid")?
        .conflicts_with("gid")?
        .conflicts_with("library")?;
    let trap = trap.help(
        "Have reqkey-trap start the program, in place of the library; each process acts for its own user",
    );
    let command = with_options(alloc, run, &RUN_OPTIONS)?.arg(trap)?;
    let program = Arg::new(alloc, "program").required(true).last(true);
    command.arg(program.num_args(1..).help("The program and its words"))
}

/// The options of the program.
const OPTIONS: [Described; 7] = [
    (
        "socket",
        "PATH",
        TEXT,
        "The socket of the daemon [default: REQKEYD_SOCKET of the environment, except for a handler between two pipes]",
    ),
    (
        "timeout",
        "N",
        NUMBER,
        "For how many seconds the daemon at a socket is waited for, 0 for as long as it takes [default: 0]",
    ),
    ("uid", "N", NUMBER, "The user to act for [default: 0]"),
    ("gid", "N", NUMBER, "The group to act for [default: 0]"),
    (
        "join",
        "N",
        RING,
        "The session ring to join, 0 for a new one [default: 0]",
    ),
    (
        "payload-from",
        "FILE",
        TEXT,
        "The payload is the contents of FILE (- for standard input); no <payload> is given",
    ),
    (
        "callout-from",
        "FILE",
        TEXT,
        "The callout is the contents of FILE (- for standard input); no <callout> is given",
    ),
];

/// The command with these options.
fn with_options<'a>(
    alloc: Global,
    bare: Command<'a>,
    options: &[Described],
) -> Result<Command<'a>, AllocError> {
    let mut command = bare;
    for (name, value, parser, help) in options {
        let option = Arg::new(alloc, name).long(name).value_name(value);
        command = command.arg(option.value_parser(*parser).help(help))?;
    }
    Ok(command)
}

/// The subcommand of an ask: its fields are its arguments, a callout the last one, but for the one that is left out.
fn subcommand<'a>(
    alloc: Global,
    shape: &AskShape,
    name: &'a str,
    without: Option<FieldKind>,
) -> Result<Command<'a>, AllocError> {
    let mut command = Command::new(alloc, name).about(about(shape.op));
    if shape.op == Op::Hello {
        return Ok(command);
    }
    for kind in shape.fields {
        if *kind != FieldKind::Callout && Some(*kind) != without {
            command = command.arg(argument(alloc, *kind).required(true))?;
        }
    }
    if shape.fields.contains(&FieldKind::Callout) && without != Some(FieldKind::Callout) {
        command = command.arg(argument(alloc, FieldKind::Callout))?;
    }
    Ok(command)
}

/// The argument of a field.
fn argument(alloc: Global, kind: FieldKind) -> Arg<'static> {
    Arg::new(alloc, kind.name())
        .allow_hyphen_values(true)
        .help(meaning(kind))
}

/// What an ask is for.
fn about(op: Op) -> &'static str {
    match op {
        Op::Hello => "Send HELLO alone, by the options, and print the serials of the rings",
        Op::Request => "Find a key, or have a handler make it, which gets the callout",
        Op::Assume => "Assume the authority to complete a key, or lay it down with 0",
        Op::Instantiate => "Give the key under construction its payload, and link it",
        Op::Negate => "Make the key negative for so many seconds",
        Op::Reject => "Make the key negative for so many seconds, with this error",
        Op::Read => "Print the payload of a key",
        Op::Describe => "Print type, owner, state and description of a key",
        Op::Revoke => "Revoke a key",
        Op::Timeout => "Let a key expire after so many seconds, or never with 0",
        Op::Link => "Link a key into a ring",
        Op::Unlink => "Take the link of a key out of a ring",
        Op::Clear => "Take all links out of a ring",
        Op::Default =>
            "Set to which ring a key that is made goes by default, and print the setting before",
        Op::Add => "Add a key with this payload, link it, and print its serial",
        Op::Callout => "Print the callout of the request",
    }
}

/// What an argument for a field is.
pub fn meaning(kind: FieldKind) -> &'static str {
    match kind {
        FieldKind::Key => "a number up to 2147483647, or auth: the authority that is assumed",
        FieldKind::Ring =>
            "a number up to 2147483647, or none, thread, process, session, user or requestor",
        FieldKind::Setting => "keep, default, thread, process, session, user or requestor",
        FieldKind::Seconds => "a number up to 4294967295",
        FieldKind::Error => "the number of an error, 126 to 129",
        FieldKind::Type => "1 to 31 bytes of text, the first no dot",
        FieldKind::Description => "1 to 4095 bytes of text",
        FieldKind::Payload => "1 to 32767 bytes",
        FieldKind::Callout => "at most 4095 bytes of text, for the handler",
        FieldKind::Uid | FieldKind::Gid | FieldKind::Flags | FieldKind::Join =>
            "given by an option",
    }
}
