//! A line of a scenario: what happens, or what the book is asked, and when.
use crate::book::words::{Fault, number, payload, serial, session, words};
use rk_client::{ask_of, op_named};
use rk_core::{Event, How, Ran};
use rk_message::{Ask, Greeting};
use rk_names::{Description, Moment, Payload, Serial, SessionId, TypeName};
use std::alloc::{AllocError, Global};

/// A line that was read.
#[derive(Drop)]
pub struct Line {
    /// Its moment, if it has one.
    pub moment: Option<Moment>,
    /// The event, or what is asked of the book.
    pub told: Move,
}

/// What a line says.
#[derive(Drop)]
pub enum Move {
    /// This event is one step of the book.
    Step(Event),
    /// May the session collect?
    Ready(SessionId),
    /// Does the session wait?
    Waits(SessionId),
    /// Is the client there?
    There(u32),
    /// How many keys and how many constructions are there?
    Counts,
    /// How far is the construction of the key?
    Stage(Serial),
    /// How many steps are owed to the client, or to the construction and its handler, and how many ends?
    Owed(SessionId),
    /// How deep is the construction of the key?
    Depth(Serial),
    /// Is the event one that nothing may refuse?
    Owes(Event),
    /// Which payload would the handler of this key see under this name?
    Peek(Serial, TypeName, Description),
}

/// The line that these words are.
pub fn read(alloc: Global, line: &str) -> Result<Line, Fault> {
    let words = words(alloc, line)?;
    let moment = match words.first() {
        Some(first) => first.parse::<u64>().ok(),
        None => None,
    };
    let told = match moment {
        None => read_move(alloc, &words)?,
        Some(_) => read_move(alloc, &words[1..])?,
    };
    Ok(Line {
        moment: moment.map(|seconds| Moment(seconds)),
        told,
    })
}

fn read_move(alloc: Global, words: &[&str]) -> Result<Move, Fault> {
    match words {
        ["ready", id] => Ok(Move::Ready(session(*id)?)),
        ["waits", id] => Ok(Move::Waits(session(*id)?)),
        ["there", client] => Ok(Move::There(number(*client)?)),
        ["counts"] => Ok(Move::Counts),
        ["stage", key] => Ok(Move::Stage(serial(*key)?)),
        ["owed", id] => Ok(Move::Owed(session(*id)?)),
        ["depth", key] => Ok(Move::Depth(serial(*key)?)),
        ["owes", event @ ..] => Ok(Move::Owes(read_event(alloc, event)?)),
        ["peek", key, typ, description] => peek(alloc, *key, *typ, *description),
        event => Ok(Move::Step(read_event(alloc, event)?)),
    }
}

fn peek(alloc: Global, key: &str, typ: &str, description: &str) -> Result<Move, Fault> {
    let key = serial(key)?;
    let typ = TypeName::new(typ.as_bytes())?;
    let description = Description::new(alloc, description.as_bytes())?;
    Ok(Move::Peek(key, typ, description))
}

fn read_event(alloc: Global, words: &[&str]) -> Result<Event, Fault> {
    match words {
        ["open", id] => Ok(Event::Opened(session(*id)?)),
        ["gone", id] => Ok(Event::Gone(session(*id)?)),
        ["collect", id] => Ok(Event::Collect(session(*id)?)),
        ["launched", key, "plain"] => Ok(Event::Launched(serial(*key)?, Ran::Plain)),
        ["launched", key, "piped"] => Ok(Event::Launched(serial(*key)?, Ran::Piped)),
        ["launched", key, "failed"] => Ok(Event::Launched(serial(*key)?, Ran::Failed)),
        ["ended", key, "exit", status, out @ ..] => {
            let status = u8::try_from(number(*status)?).ok().ok_or(Fault::Word)?;
            ended(alloc, *key, How::Exit(status), out)
        }
        ["ended", key, "signal", out @ ..] => ended(alloc, *key, How::Signal, out),
        ["ended", key, "fault", out @ ..] => ended(alloc, *key, How::Fault, out),
        [id, op, arguments @ ..] => {
            let id = session(*id)?;
            let ask = asked(alloc, *op, arguments)?;
            Ok(Event::Asked(id, ask))
        }
        _ => Err(Fault::Word),
    }
}

/// The handler has ended, with what it output, if anything.
fn ended(alloc: Global, key: &str, how: How, out: &[&str]) -> Result<Event, Fault> {
    let key = serial(key)?;
    let put_out: Option<Payload> = match out.first() {
        None => None,
        Some(word) => Some(payload(alloc, *word)?),
    };
    Ok(Event::Ended(key, how, put_out))
}

/// The ask of these words, which are those of `reqkeyctl`, but for HELLO.
fn asked(alloc: Global, op: &str, arguments: &[&str]) -> Result<Ask, Fault> {
    if let ("hello", [uid, gid, rings, join]) = (op, arguments) {
        return hello(*uid, *gid, *rings, *join);
    }
    let op = op_named(op).ok_or(Fault::Word)?;
    let arguments = bytes_of(alloc, arguments)?;
    Ok(ask_of(alloc, op, &arguments)?)
}

fn bytes_of<'a>(alloc: Global, words: &[&'a str]) -> Result<Vec<&'a [u8]>, AllocError> {
    let mut bytes = Vec::new(alloc);
    for word in words {
        bytes.push(word.as_bytes())?;
    }
    Ok(bytes)
}

/// Who asks: uid, gid, whether a thread ring (1) or a process ring (2) is wanted, and the session ring that is joined, or 0.
fn hello(uid: &str, gid: &str, rings: &str, join: &str) -> Result<Ask, Fault> {
    let (uid, gid) = (number(uid)?, number(gid)?);
    let (rings, join) = (number(rings)?, number(join)?);
    Ok(Ask::Hello(Greeting {
        uid,
        gid,
        thread: rings % 2 == 1,
        process: rings / 2 == 1,
        join: Serial::new(join),
    }))
}
