//! What the words ask for, done over the streams that are passed in.
ghost use Rattle.std.specs.Prelude.{◌≡◌, ◌≤◌, true, false, None, map, string_bytes, IfOk, IfSome, OnErr, IsSome, MatchOption, option_map};
ghost use Rattle.std.specs.List.{list_all};
ghost use Rattle.std.specs.Io.KnownBytes.{Appends};
ghost use Rattle.rk_preview.specs.Views.{asked_by};
ghost use Rattle.rk_daemon.specs.Settings.{set_by};
ghost use Rattle.reqkeyd.specs.Rejoined.{are_files, asks_rejoin, is_file, named_files, HasRejoined};
ghost use Rattle.reqkeyd.specs.Outcome.{asks_check, asks_preview, asks_replay, asks_serve, HasPlayed, HasShown, HasTold};

use crate::args::{command, is_memory};
use crate::complaint::Complaint;
use crate::reason::tell_reason;
use crate::rejoining::rejoin;
use crate::showing::show;
use clap::Error;
use rk_daemon::{Keeper, Settings, serve};
use rk_preview::Preview;
use rk_rejoin::Disk;
use rk_replay::run_script;
use std::alloc::{AllocError, Global};
use std::fs::Files;
use std::io::{Eprint, Read, Write};
use std::net::Net;
use std::process::{Processes, SystemProcess};
use std::random::RandomSource;
use std::rt::Env;
use std::sync::Wait;
use std::thread::Threads;
use std::time::Clock;

/// The status of a run that failed.
pub const FAILED: u8 = 1;

/// The status of a usage error.
const USAGE: u8 = 2;

/// The answer to out of memory at the start.
pub fn no_memory<E: Write>(errors: &mut E) -> u8
    ensures { result ≡ 1 }
{
    let _ = errors.write_all(b"reqkeyd: memory\n");
    FAILED
}

/// The answer to a script that could not be played to its end.
fn no_script<E: Write>(errors: &mut E) -> u8
    ensures { result ≡ 1 }
{
    let _ = errors.write_all(b"reqkeyd: script\n");
    FAILED
}

/// The usage in one line, for words that are not text, and for those that could be read and ask for nothing.
pub fn usage<E: Write>(errors: &mut E) -> u8
    ensures { result ≡ 2 }
{
    let _ = errors.write_all(
        b"usage: reqkeyd replay | reqkeyd serve --socket PATH --conf PATH [OPTIONS] | reqkeyd check --conf PATH | \
reqkeyd pick --conf PATH [OPTIONS] TYPE DESCRIPTION CALLOUT | reqkeyd rejoin FILES\n",
    );
    USAGE
}

/// Tells what was asked for.
pub fn tell<W: Write>(text: &[u8], writer: &mut W) -> u8
    ensures told { result ≡ 0 → Appends (W.contents writer.old) (W.contents writer.new) text.now }
    ensures status { result ≤ 1 }
{
    let Ok(()) = writer.write_all(text) else {
        return FAILED;
    };
    match writer.flush() {
        Ok(()) => 0,
        Err(_) => FAILED,
    }
}

/// Says what the command line lacks on the stream that it is for: help and version are asked for, all else is a fault.
fn refused<W: Write, E: Write>(alloc: Global, error: &Error, writer: &mut W, errors: &mut E) -> u8
    ensures told { result ≡ 0 → HasTold (W.contents writer.old) (W.contents writer.new) }
    ensures quiet { result ≡ 0 → errors.new ≡ errors.old }
    ensures usage { result ≡ 2 → writer.new ≡ writer.old }
    ensures status { result ≤ 2 }
{
    if is_memory(error) {
        return no_memory(errors);
    }
    let Ok(text) = error.to_string(alloc) else {
        return no_memory(errors);
    };
    if error.use_stderr() {
        let _ = errors.write_all(text.as_bytes());
        return USAGE;
    }
    tell(text.as_bytes(), writer)
}

/// Whether the words are the name of the program and `replay`, and nothing else.
fn is_replay(words: &[String]) -> bool
    ensures { result ≡ asks_replay (map string_bytes words.now) }
{
    match words {
        [_, word] => word.as_str() == "replay",
        _ => false,
    }
}

/// Runs the program on these words and streams, and gives its status: 0; 1 if a script could not be run to its end or memory ran
/// out, with a line on `errors`, or if `writer` fails; 2 for a usage error, with the usage on `errors`.
///
/// The first word is the name of the program. If `replay` is the only other one, a script is read from `reader` and played to
/// `writer`. For all other words nothing is read. `serve` with its options runs the daemon, to its end: 1 if it could not begin, with the fault on
/// `errors`. `check` and `pick` with theirs write what a configuration has to say: 1 if it can't be read, has a fault or chooses no line, with that on
/// `errors`. `rejoin` with files has `disk` read them, and tells whether they are a run of the machine: 0 if they are, else 1, with why not on `errors`.
/// Help and the version are asked for, so they are written to `writer` with status 0.
// (`rejoin`, `replay`, `show` and `explain` are not inlined: a daemon does none of them, and would have 12 KB of room for them in memory, on its stack.)
pub fn run_words<
    R: Files
        + Net
        + Env
        + Threads
        + Wait
        + Processes<Started = SystemProcess>
        + Clock
        + Eprint
        + Keeper
        + RandomSource
        + AllocGlobal
        + Clone
        + Send
        + Drop
        + 'static,
    D: Disk,
    I: Read,
    W: Write,
    E: Write,
>(rt: &R, disk: &mut D, words: &[String], reader: &mut I, writer: &mut W, errors: &mut E) -> u8
    // `replay` and nothing else: with status 0 it has written the lines of a served list for the happenings of the script that it read.
    ensures played { asks_replay (map string_bytes words.now) ≡ true → result ≡ 0
        → HasPlayed (I.remaining reader.old) (W.contents writer.old) (W.contents writer.new) }
    ensures runs { asks_replay (map string_bytes words.now) ≡ true → result ≤ 1 }

    // `check` or `pick`: with status 0 it has written what the text of some configuration has to say to that.
    ensures shown { IfSome (asks_preview (map string_bytes words.now)) (λ asked. result ≡ 0
        → HasShown asked (W.contents writer.old) (W.contents writer.new)) }
    ensures looks { IsSome (asks_preview (map string_bytes words.now)) → result ≤ 1 }

    // `rejoin` and files: with status 0 each of the files was read once, and the volumes in them are, for each hall, a run of the machine that obeys its
    // laws. For other words the disk reads nothing.
    ensures rejoined { asks_rejoin (map string_bytes words.now) ≡ true → result ≡ 0
        → HasRejoined (named_files (map string_bytes words.now)) (D.story disk.old) (D.story disk.new) (W.contents writer.old) (W.contents writer.new) }
    ensures joins { asks_rejoin (map string_bytes words.now) ≡ true → result ≤ 1 }
    ensures unasked { asks_rejoin (map string_bytes words.now) ≡ false → disk.new ≡ disk.old }

    // other words than `replay`: nothing is read; help and version are printed with status 0, and nothing is with status 2.
    ensures unread { asks_replay (map string_bytes words.now) ≡ false → reader.new ≡ reader.old }
    ensures told { asks_replay (map string_bytes words.now) ≡ false → result ≡ 0 → HasTold (W.contents writer.old) (W.contents writer.new) }
    ensures usage { result ≡ 2 → writer.new ≡ writer.old }

    // `serve` with options that set what is to be set: the daemon says when it is ready. `check` may warn. Of any other run that ends well nothing is said.
    ensures serves { IsSome (asks_serve (map string_bytes words.now)) → result ≤ 1 }
    ensures quiet { asks_serve (map string_bytes words.now) ≡ None → asks_check (map string_bytes words.now) ≡ false → result ≡ 0
        → errors.new ≡ errors.old }
    ensures status { result ≤ 2 }
{
    let alloc = rt.alloc();
    if let Some(files) = files_of(words) {
        return rejoin(alloc, disk, files, writer, errors);
    }
    if is_replay(words) {
        return replay(alloc, reader, writer, errors);
    }
    match preview_of(alloc, words) {
        Ok(Some(preview)) => return show(rt, &preview, writer, errors),
        Ok(None) => {}
        Err(AllocError) => return no_memory(errors),
    }
    match settings_of(words) {
        Some(settings) => daemon(rt, &settings, errors),
        None => explain(alloc, words, writer, errors),
    }
}

/// What words ask to see of a configuration, if they do. The only refusal is out of memory, for words that do.
fn preview_of<'a>(alloc: Global, words: &'a [String]) -> Result<Option<Preview<'a>>, AllocError>
    ensures said { IfOk result (λ r. option_map asked_by r ≡ asks_preview (map string_bytes words.now)) }
    ensures memory { OnErr result (IsSome (asks_preview (map string_bytes words.now))) }
{
    match words {
        [_, words @ ..] => Preview::read(alloc, words),
        [] => Ok(None),
    }
}

/// The files of words that ask whether they are a run of the machine.
fn files_of(words: &[String]) -> Option<&[String]>
    ensures { MatchOption result (asks_rejoin (map string_bytes words.now) ≡ false)
        (λ files. (asks_rejoin (map string_bytes words.now) ≡ true) × (map string_bytes files.now ≡ named_files (map string_bytes words.now))) }
{
    match words {
        [_, word, files @ ..] if word.as_str() == "rejoin" && are_files(files) => Some(files),
        _ => None,
    }
}

/// Whether words are at least one file, and nothing else.
fn are_files(words: &[String]) -> bool
    ensures { result ≡ are_files (map string_bytes words.now) }
{
    !words.is_empty() && all_files(words)
}

/// Whether no word is an option.
fn all_files(words: &[String]) -> bool
    ensures { result ≡ list_all (λ word. is_file (string_bytes word)) words.now }
{
    words.iter().all(|word| is_file(word.as_str()))
}

/// Whether a word is no option.
fn is_file(word: &str) -> bool
    ensures { result ≡ is_file word.now }
{
    !matches!(word.as_bytes(), [b'-', ..])
}

/// The settings of words that ask for the daemon.
fn settings_of<'a>(words: &'a [String]) -> Option<Settings<'a>>
    ensures { option_map set_by result ≡ asks_serve (map string_bytes words.now) }
{
    match words {
        [_, word, options @ ..] if word.as_str() == "serve" => Settings::read(options),
        _ => None,
    }
}

/// Runs the daemon.
fn daemon<
    R: Files
        + Net
        + Env
        + Threads
        + Wait
        + Processes<Started = SystemProcess>
        + Clock
        + Eprint
        + Keeper
        + RandomSource
        + AllocGlobal
        + Clone
        + Send
        + Drop
        + 'static,
    E: Write,
>(rt: &R, settings: &Settings<'_>, errors: &mut E) -> u8
    ensures status { result ≤ 1 }
{
    match serve(rt, settings, errors) {
        Ok(()) => 0,
        Err(fault) => {
            let _ = writeln!(errors, "reqkeyd: {fault}");
            tell_reason(rt.alloc(), settings, &fault, errors);
            FAILED
        }
    }
}

/// Says what is wrong with words that look right.
fn complain<E: Write>(words: &[String], errors: &mut E) -> u8
    ensures { result ≡ 2 }
{
    match Complaint::of(words) {
        Some(complaint) => {
            let _ = writeln!(errors, "error: {complaint}");
            USAGE
        }
        None => usage(errors),
    }
}

/// Answers words that ask for no script: help, the version, or what they lack.
#[inline(never)]
fn explain<W: Write, E: Write>(
    alloc: Global,
    words: &[String],
    writer: &mut W,
    errors: &mut E,
) -> u8
    ensures told { result ≡ 0 → HasTold (W.contents writer.old) (W.contents writer.new) }
    ensures quiet { result ≡ 0 → errors.new ≡ errors.old }
    ensures usage { result ≡ 2 → writer.new ≡ writer.old }
    ensures status { result ≤ 2 }
{
    let Ok(command) = command(alloc) else {
        return no_memory(errors);
    };
    match command.try_get_matches_from(words) {
        Ok(_) => complain(words, errors),
        Err(error) => refused(alloc, &error, writer, errors),
    }
}

/// Runs a script.
#[inline(never)]
fn replay<I: Read, W: Write, E: Write>(
    alloc: Global,
    reader: &mut I,
    writer: &mut W,
    errors: &mut E,
) -> u8
    ensures played { result ≡ 0 → HasPlayed (I.remaining reader.old) (W.contents writer.old) (W.contents writer.new) }
    ensures quiet { result ≡ 0 → errors.new ≡ errors.old }
    ensures status { result ≤ 1 }
{
    match run_script(alloc, reader, writer) {
        Ok(()) => 0,
        Err(_) => no_script(errors),
    }
}
