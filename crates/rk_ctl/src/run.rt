//! What the words ask for, done over the streams that are passed in.
ghost use Rattle.std.specs.Prelude.{◌≡◌, ◌≤◌, ℕ, List, Option, IfSome, Some, None, true, false, map, string_bytes};
ghost use Rattle.rk_run.specs.Words.{wanted_said};
ghost use Rattle.rk_ctl.specs.Around.{call_in, is_lost};
ghost use Rattle.rk_ctl.specs.Calls.{asks_help};
ghost use Rattle.rk_ctl.specs.Outcome.{HasDone, HasSpoken};
ghost use Rattle.rk_ctl.specs.Programs.{RunsAs};
ghost use Rattle.rk_ctl.specs.Said.{CallSaid, call_by};

use crate::address::Address;
use crate::around::{Around, Invocation};
use crate::asking::{AskFault, ask_for, greeting_before};
use crate::call::Call;
use crate::daemon::Daemon;
use crate::help::{Misuse, explain};
use crate::looking::look;
use crate::running::run_program;
use crate::streams::Streams;
use crate::survey::Survey;
use crate::telling::{answer, answer_alone, no_file, no_memory, refused};
use crate::trouble::{of_file, of_streams};
use rk_client::exchange;
use rk_run::{Host, Wanted};
use std::alloc::Global;
use std::fs::Files;
use std::io::{Read, Write};

/// Runs the program on these words and streams, and gives its status: 0 if a reply was printed; 1 if it was a refusal, or there is none, or
/// a file can't be used, or memory ran out, with a line on `errors`; 2 for a usage error, with the usage on `errors`.
///
/// Of `streams`, `reader` is standard input, `writer` standard output and `errors` standard error. The first word is the name of the program.
///
/// With `--socket`, or else with the socket that what is around has for the op, the `daemon` there is asked, after the HELLO of the options; the reply is
/// printed on `writer`, and `reader` is read only for a file `-`. Without one the peer is at the streams: one ask is written to `writer`, unless that is a
/// terminal, one reply read from `reader`, and it is printed on `errors`. Help and the version are written to `writer`.
///
/// If the last word is `list` or `sweep`, after options alone, the daemon is searched for keys ([`crate::find_keys`]), and what is found is
/// printed on `writer`.
///
/// If the second word is `run`, and what follows are its options, `--` and a program, that program is run by `host` in a session ring of its own
/// ([`rk_run::run`]), and the status is the program's; 127 if there is no such program and 126 if it can't be started; 1 if it was not run
/// otherwise, with a line on `errors`.
pub fn run_words<
    R: AllocGlobal + Files,
    H: Host,
    D: Daemon,
    I: Read + Drop,
    W: Write + Drop,
    E: Write + Drop,
>(
    rt: &R,
    host: &mut H,
    daemon: &mut D,
    invocation: Invocation<'_>,
    streams: &mut Streams<I, W, E>,
) -> u8
    // what was done, by the words
    ensures done { result ≡ 0 → HasDone invocation.entry.around.now (map string_bytes invocation.entry.words.now) (D.story daemon.old) (D.story daemon.new)
        (I.remaining streams.old.reader) (I.remaining streams.new.reader) (W.contents streams.old.writer) (W.contents streams.new.writer)
        (E.contents streams.old.errors) (E.contents streams.new.errors) }
    // whatever the status, the daemon is asked for nothing but what the words say, and that once
    ensures spoke { HasSpoken invocation.entry.around.now (map string_bytes invocation.entry.words.now) (D.story daemon.old) (D.story daemon.new) result }
    // words that ask for nothing read, write and say nothing
    ensures usage { result ≡ 2 → (streams.new.reader ≡ streams.old.reader) × (streams.new.writer ≡ streams.old.writer) × (daemon.new ≡ daemon.old) }
    // a call that names no daemon writes nothing to a terminal, but help
    ensures lost { (call : CallSaid) → call_in invocation.entry.around.now (map string_bytes invocation.entry.words.now) ≡ Some call
        → is_lost invocation.entry.around.now call ≡ true → asks_help (map string_bytes invocation.entry.words.now) ≡ false
        → (streams.new.reader ≡ streams.old.reader) × (streams.new.writer ≡ streams.old.writer) × (daemon.new ≡ daemon.old) }

    // a program that is wanted is run, and nothing is read, written or said here
    ensures runs { IfSome (wanted_said (map string_bytes invocation.entry.words.now)) (λ said. RunsAs said (H.story host.old) (H.story host.new) result
        × (streams.new.reader ≡ streams.old.reader) × (streams.new.writer ≡ streams.old.writer) × (daemon.new ≡ daemon.old)) }
    // for other words none is
    ensures asks { wanted_said (map string_bytes invocation.entry.words.now) ≡ None → (host.new ≡ host.old) × (result ≤ 2) }
{
    match Wanted::read(invocation.words) {
        Some(wanted) => run_program(rt.alloc(), host, &wanted, &mut streams.errors),
        None => ask_words(rt, daemon, invocation, streams),
    }
}

/// Does what other words ask for: one ask, a search for keys, or help.
fn ask_words<R: AllocGlobal + Files, D: Daemon, I: Read + Drop, W: Write + Drop, E: Write + Drop>(
    rt: &R,
    daemon: &mut D,
    invocation: Invocation<'_>,
    streams: &mut Streams<I, W, E>,
) -> u8
    ensures done { result ≡ 0 → HasDone invocation.entry.around.now (map string_bytes invocation.entry.words.now) (D.story daemon.old) (D.story daemon.new)
        (I.remaining streams.old.reader) (I.remaining streams.new.reader) (W.contents streams.old.writer) (W.contents streams.new.writer)
        (E.contents streams.old.errors) (E.contents streams.new.errors) }
    ensures spoke { HasSpoken invocation.entry.around.now (map string_bytes invocation.entry.words.now) (D.story daemon.old) (D.story daemon.new) result }
    ensures usage { result ≡ 2 → (streams.new.reader ≡ streams.old.reader) × (streams.new.writer ≡ streams.old.writer) × (daemon.new ≡ daemon.old) }
    ensures lost { (call : CallSaid) → call_in invocation.entry.around.now (map string_bytes invocation.entry.words.now) ≡ Some call
        → is_lost invocation.entry.around.now call ≡ true → asks_help (map string_bytes invocation.entry.words.now) ≡ false
        → (streams.new.reader ≡ streams.old.reader) × (streams.new.writer ≡ streams.old.writer) × (daemon.new ≡ daemon.old) }
    ensures status { result ≤ 2 }
{
    let (alloc, Invocation { words, around }) = (rt.alloc(), invocation);
    let Streams {
        reader,
        writer,
        errors,
    } = streams;
    let Some(call) = Call::read_in(words, around) else {
        return search_words(alloc, daemon, invocation, writer, errors);
    };
    if is_lost(around, &call) {
        return explain(alloc, words, Misuse::Lost, writer, errors);
    }
    let ask = match ask_for(rt, alloc, &call, reader) {
        Ok(ask) => ask,
        Err(AskFault::Words(fault)) => {
            return explain(
                alloc,
                words,
                Misuse::Arguments(&call, fault),
                writer,
                errors,
            );
        }
        Err(AskFault::Place(fault)) => {
            return explain(alloc, words, Misuse::Place(fault), writer, errors);
        }
        Err(AskFault::NoMemory) => return no_memory(errors),
        Err(fault) => {
            let trouble = of_file(alloc, &call, fault);
            return no_file(trouble.as_deref(), errors);
        }
    };
    let options = &call.options;
    match options.socket {
        Some(path) => {
            let address = Address {
                path,
                seconds: options.timeout,
            };
            match daemon.ask(address, greeting_before(&call).as_ref(), &ask) {
                Ok(reply) => answer(alloc, reply, options, writer, errors),
                Err(fault) => refused(fault, daemon.trouble(), errors),
            }
        }
        None => match exchange(alloc, reader, writer, &ask) {
            Ok(reply) => answer_alone(alloc, reply, options, errors),
            Err(fault) => refused(fault, Some(of_streams(fault)), errors),
        },
    }
}

/// Does what other words than an ask say: a search for keys, or help.
fn search_words<D: Daemon, W: Write, E: Write>(
    alloc: Global,
    daemon: &mut D,
    invocation: Invocation<'_>,
    writer: &mut W,
    errors: &mut E,
) -> u8
    ensures done { result ≡ 0 → (unread unread' told told' : Option (List ℕ))
        → HasDone invocation.entry.around.now (map string_bytes invocation.entry.words.now)
        (D.story daemon.old) (D.story daemon.new) unread unread' (W.contents writer.old) (W.contents writer.new) told told' }
    ensures spoke { HasSpoken invocation.entry.around.now (map string_bytes invocation.entry.words.now) (D.story daemon.old) (D.story daemon.new) result }
    ensures usage { result ≡ 2 → (writer.new ≡ writer.old) × (daemon.new ≡ daemon.old) }
    ensures status { result ≤ 2 }
{
    match Survey::read(invocation.words, invocation.around) {
        Some(survey) => look(alloc, daemon, &survey, writer, errors),
        None => explain(alloc, invocation.words, Misuse::Words, writer, errors),
    }
}

/// Whether the call names no daemon, and its ask would be written to a terminal.
fn is_lost(around: &Around, call: &Call<'_>) -> bool
    ensures { result ≡ is_lost around.now (call_by call.now) }
{
    around.terminal && call.options.socket.is_none()
}
