//! What may stand on the command line after `check` and `pick`.
use clap::builder::ValueParser;
use clap::{Arg, ArgAction, Command};
use std::alloc::{AllocError, Global};

/// What `pick --help` says before its options.
const PICK: &str = "Tells which line of a configuration a request chooses, and what would be started

Options stand before the names. Nothing is started, and no key is looked for.";

/// What `pick --help` says after its options.
const AFTER: &str =
    "Numbers have no sign. The output is one line for the number of the chosen line and its kind, one for the program's path, and one for each word. \
In a path or word a control byte (0x01 to 0x1f, 0x7f) and a backslash are \\0 and three octal digits, which printf(1) reads by %b.

Example:
  reqkeyd pick --conf /etc/reqkeyd.conf --uid 1000 user debug:x hello

Status: 0; 2 for a usage error; 1 for a configuration that can't be read (reqkeyd: conf) or has an invalid line (reqkeyd: conf line 3: C1: fewer than five \
fields), if no line is chosen (reqkeyd: no line), if the words of line 3 can't be made, as for the payload of a key (reqkeyd: line 3: X1: ..), if it is \
out of memory (reqkeyd: memory), or if the output can't be written (reqkeyd: output).";

/// The names of a request, and what they are.
const NAMES: [(&str, &str); 3] = [
    (
        "type",
        "the type of the key, 1 to 31 bytes, the first no dot",
    ),
    ("description", "its description, 1 to 4095 bytes"),
    (
        "callout",
        "what the handler gets, at most 4095 bytes; it may be empty",
    ),
];

/// A number of 32 bits.
pub const NUMBER: ValueParser = ValueParser::Unsigned(0, 4_294_967_295);

/// The serial of a ring, or 0.
const RING: ValueParser = ValueParser::Unsigned(0, 2_147_483_647);

/// The numbers of a request, what they have to look like, and what they are.
const NUMBERS: [(&str, ValueParser, &str); 6] = [
    (
        "uid",
        NUMBER,
        "The user that asks, 0 to 4294967295 [default: 0]",
    ),
    ("gid", NUMBER, "Its group, 0 to 4294967295 [default: 0]"),
    (
        "key",
        ValueParser::Unsigned(1, 2_147_483_647),
        "The serial of the key that is to be made, 1 to 2147483647 [default: 1]",
    ),
    (
        "thread",
        RING,
        "The user's thread ring, 0 to 2147483647, 0 for none [default: 0]",
    ),
    (
        "process",
        RING,
        "Its process ring, 0 to 2147483647, 0 for none [default: 0]",
    ),
    (
        "session",
        RING,
        "Its session ring, 0 to 2147483647, 0 for none [default: 0]",
    ),
];

/// The configuration, which must be named.
fn conf(alloc: Global) -> Arg<'static> {
    Arg::new(alloc, "conf")
        .long("conf")
        .value_name("PATH")
        .required(true)
        .help("The configuration (reqkeyd.conf(5))")
}

/// `check` with its option.
pub fn check<'a>(alloc: Global) -> Result<Command<'a>, AllocError> {
    Command::new(alloc, "check")
        .about("Tells how many lines of a configuration name a program, or its first invalid line")
        .after_help(CHECKED)
        .arg(conf(alloc))
}

/// What `check --help` says after its option.
const CHECKED: &str = "Example:
  reqkeyd check --conf /etc/reqkeyd.conf

Standard error has a line for each thing that is allowed and hardly meant: an operation that no request has, a program that can't be started, a line that \
an earlier one hides, a word that begins with #, no line at all.

Status: 0 (ok, 3 lines), also with warnings; 2 for a usage error; 1 for a configuration that can't be read (reqkeyd: conf) or has an invalid line \
(reqkeyd: conf line 3: C1: fewer than five fields), if it is out of memory (reqkeyd: memory), or if the output can't be written (reqkeyd: output).";

/// `pick` with its options and the names.
pub fn pick<'a>(alloc: Global) -> Result<Command<'a>, AllocError> {
    let negate = Arg::new(alloc, "negate")
        .long("negate")
        .action(ArgAction::SetTrue);
    let mut pick = Command::new(alloc, "pick")
        .about(PICK)
        .after_help(AFTER)
        .arg(conf(alloc))?
        .arg(negate.help(
            "What is run after a piped program failed, in place of what makes the key",
        ))?;
    for (name, parser, help) in &NUMBERS {
        let option = Arg::new(alloc, name).long(name).value_name("N");
        pick = pick.arg(option.value_parser(*parser).help(help))?;
    }
    for (name, help) in &NAMES {
        pick = pick.arg(Arg::new(alloc, name).required(true).help(help))?;
    }
    Ok(pick)
}
