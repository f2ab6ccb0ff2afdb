//! Happenings that are played while allocations fail.
use crate::same::same;
use rk_conf::Conf;
use rk_core::Limits;
use rk_names::Serial;
use rk_replay::{LineFault, Outputs, Replay, ScriptLine, TakeFault, Transcript};
use std::alloc::{AllocError, Global};
use std::process::Abort;

const HELLO: &[u8] = b"100 bytes 1 0000000e01000003e8000003e80000000000";

const REQUEST: &[u8] = b"100 bytes 1 00000012020004757365720001610100017800000000";

fn tell_all(transcript: &mut Transcript, outputs: &Outputs) -> Result<(), AllocError> {
    for told in outputs.as_slice() {
        transcript.tell(told)?;
    }
    Ok(())
}

/// Puts out what a happening gives, or that its line changed nothing.
fn put_line(
    alloc: Global,
    replay: &mut Replay,
    transcript: &mut Transcript,
    number: u64,
    line: &[u8],
) -> Result<(), AllocError> {
    let taken = match ScriptLine::read(alloc, line)? {
        ScriptLine::Happens(now, happening) => replay.take(alloc, now, &happening),
        _ => return transcript.refuse(number, LineFault::NotALine),
    };
    match taken {
        Ok(outputs) => tell_all(transcript, &outputs),
        Err(TakeFault::Unknown) => transcript.refuse(number, LineFault::Unknown),
        Err(TakeFault::NoMemory) => Err(AllocError),
    }
}

fn put_lines(
    alloc: Global,
    replay: &mut Replay,
    transcript: &mut Transcript,
    lines: &[&[u8]],
) -> Result<(), AllocError> {
    for (i, line) in lines.iter().enumerate() {
        put_line(alloc, replay, transcript, i as u64 + 1, *line)?;
    }
    Ok(())
}

const NEGATED: &[u8] = b"create * * * |/bin/p\nnegate * * * /bin/keyctl negate %k 30 %S";

/// A piped handler fails, and what follows it makes the key negative.
const FAILED_AND_NEGATED: &[&[u8]] = &[
    b"100 accept 1",
    HELLO,
    REQUEST,
    b"100 started 3",
    b"100 ended 3 exit 1",
    b"100 started 3",
    b"100 out 3 000000050300000003",
    b"100 out 3 0000000d05000000030000001e00000000",
    b"100 ended 3 exit 0",
];

const FAILED_AND_NEGATED_SAYS: &str = "to 1 000000110200000000000000000000000100000002\n\
    start 3 piped =/bin/p\n\
    tohandler 3 78\n\
    start 3 plain =/bin/keyctl =negate =3 =30 =1\n\
    tohandler 3 000000050000000000\n\
    tohandler 3 000000050000000000\n\
    to 1 00000002037e\n";

/// Plays the lines, as far as there is memory.
fn play_lines(
    alloc: Global,
    conf: &[u8],
    lines: &[&[u8]],
    transcript: &mut Transcript,
) -> Result<(), AllocError> {
    let conf = Conf::read(alloc, conf).map_err(|_| AllocError)?;
    let limits = Limits {
        negative: 60,
        first: Serial::new(1).ok_or(AllocError)?,
        stride: 1,
        seed: 0,
    };
    let mut replay = Replay::new(alloc, conf, limits)?;
    let played = put_lines(alloc, &mut replay, transcript, lines);
    drop(replay);
    played
}

/// The first line that was not wanted, if there is one.
fn first_other<'a>(text: &'a str, want: &str) -> Option<&'a str> {
    for (said, wanted) in text.lines().zip(want.lines()) {
        if said != wanted {
            return Some(said);
        }
    }
    None
}

/// The lines that a failed allocation may cause.
const SHOWN: &[&str] = &[
    "shut 1",
    "to 1 00000002030c",
    "to 1 00000002037e",
    "tohandler 3 00000002030c",
];

/// What was said is what was wanted, or shows a failed allocation, or came to its end before.
fn is_said(rt: &impl Abort, text: &str, played: Result<(), AllocError>) {
    if played.is_err() {
        return;
    }
    match first_other(text, FAILED_AND_NEGATED_SAYS) {
        None => same(rt, text, FAILED_AND_NEGATED_SAYS),
        Some(other) => same(rt, (other, SHOWN.contains(&other)), (other, true)),
    }
}

/// Up to an allocation that fails (`rt try --test --fail-alloc N`) the lines are the same. The failure shows as a client that is shut,
/// as ENOMEM, as a command that can't be made, or as the end of all.
#[test]
fn growths_of_a_negate_command(rt: HostRuntime) {
    let alloc = rt.alloc();
    let mut transcript = Transcript::new(alloc);
    let played = play_lines(alloc, NEGATED, FAILED_AND_NEGATED, &mut transcript);
    let text = str::from_utf8(transcript.as_bytes()).unwrap_or("no text");
    is_said(&rt, text, played);
}
