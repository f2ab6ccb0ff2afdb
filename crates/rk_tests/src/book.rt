//! What happens to a Book, in plain lines, where no script of `reqkeyd replay` can play it.
//!
//! A test is a table of lines, each with its answer: what happens to a request_key daemon, and what it says. Every answer was worked out by
//! hand from docs/MACHINE.md and the manuals, and none was taken from a run. Scenarios of the machine are scripts, in tests/replay. Here is
//! what those can't play: allocations that fail one by one (`rt try --test --fail-alloc N`), and events out of turn. So are what a book
//! returns without a step, and other serials than those from 1 on.
//!
//! # Lines
//!
//! A session is `c1`, the client 1, or `h3`, the handler that makes key 3. A line may begin with its moment in seconds, which stays
//! until a line has another.
//!
//! | Line | What happens |
//! |---|---|
//! | `100 open c1` | client 1 is there, at the moment 100 |
//! | `c1 hello 1000 1000 3 0` | client 1 says who it is: uid, gid, its own rings (1 a thread ring, 2 a process ring, 3 both), the session ring to join, or 0 |
//! | `c1 request user a none x` | client 1 asks, in the words of `reqkeyctl` (reqkeyctl(1)) |
//! | `launched 3 plain` | the handler of key 3 runs; or `piped`, `failed` |
//! | `ended 3 exit 0 hi` | it ended, with what it output, if anything; or `signal`, `fault` |
//! | `collect c1` | client 1 takes the outcome of its wait |
//! | `gone c1` | client 1 is gone |
//! | `ready c1`, `waits c1`, `there 1`, `stage 3`, `depth 3`, `peek 3 user a`, `owes gone c1`, `owed c1` | nothing happens: the book is only asked |
//!
//! # Answers
//!
//! | Answer | What it says |
//! |---|---|
//! | `0`, `3` | done; a number, as the serial of a key |
//! | `rings 0 0 1 2` | the thread, process, session and user ring of a new context |
//! | `bytes hi` | a payload, a description or a callout |
//! | `start 3` | a start: the key |
//! | `waiting 3` | the session waits for key 3 |
//! | `E126` | refused, by the number of errno(3) |
//! | `yes`, `no`, `none`, `starting` | what a book that was only asked says |
//! | `3 1` | how many steps and how many ends are owed |
//!
//! # How it is built
//!
//! `words` takes a line apart, `moves` reads it, `answers` prints what is answered, and here the tables are played. Those of `scenes` are played
//! with failed allocations, on two books of which one is a step behind. `misuse`, `views` and `limits` play their own.
use crate::book::answers::play;
use crate::book::moves::read;
use crate::same::same_text;
use rk_core::{Book, Limits};
use rk_names::{Moment, Serial};
use std::alloc::{AllocError, Global};
use std::process::Abort;
use std::test::Fail;

mod answers;
mod growths;
mod limits;
mod misuse;
mod moves;
mod negating;
mod scenes;
mod views;
mod words;

/// A line, and what the book says to it.
type Row = (&'static str, &'static str);

/// A client has a new session ring, and the user ring of its uid.
const ALONE: &[Row] = &[
    ("100 open c1", "0"),
    ("c1 hello 1000 1000 0 0", "rings 0 0 1 2"),
];

/// A second client joins the session ring of the first.
const TWO: &[Row] = &[
    ("100 open c1", "0"),
    ("c1 hello 1000 1000 0 0", "rings 0 0 1 2"),
    ("open c2", "0"),
    ("c2 hello 1000 1000 0 1", "rings 0 0 1 2"),
];

/// A client with a thread ring.
const THREAD: &[Row] = &[
    ("100 open c1", "0"),
    ("c1 hello 1000 1000 1 0", "rings 1 0 2 3"),
];

/// A book whose keys stay negative for 60 seconds, and whose first serial is this one.
fn new_book(rt: &impl Abort, alloc: Global, first: u32) -> Result<Book, AllocError> {
    let first = Serial::new(first).expect(rt, "a serial");
    Book::new(
        alloc,
        Limits {
            negative: 60,
            first,
            stride: 1,
            seed: 0,
        },
    )
}

/// Plays a line at this moment, or the one that it has, and gives the moment back.
fn play_line(
    rt: &impl Abort,
    alloc: Global,
    book: &mut Book,
    now: Moment,
    line: &str,
    answer: &str,
) -> Result<Moment, Fail> {
    let read = read(alloc, line)?;
    let now = read.moment.unwrap_or(now);
    let said = play(alloc, book, now, read.told)?;
    same_text(rt, line, said.as_str(), answer);
    Ok(now)
}

/// Plays the rows from this moment on, and gives the last moment back.
fn play_rows(
    rt: &impl Abort,
    alloc: Global,
    book: &mut Book,
    now: Moment,
    rows: &[Row],
) -> Result<Moment, Fail> {
    let mut now = now;
    for (line, answer) in rows {
        now = play_line(rt, alloc, book, now, line, answer)?;
    }
    Ok(now)
}

/// Plays the tables one after the other.
fn play_tables(
    rt: &impl Abort,
    alloc: Global,
    book: &mut Book,
    tables: &[&[Row]],
) -> Result<(), Fail> {
    let mut now = Moment(0);
    for rows in tables {
        now = play_rows(rt, alloc, book, now, rows)?;
    }
    Ok(())
}

/// Plays the tables one after the other on a new book, whose first serial is this one.
fn play_from(rt: &impl Abort, alloc: Global, first: u32, tables: &[&[Row]]) -> Result<(), Fail> {
    let mut book = new_book(rt, alloc, first)?;
    let played = play_tables(rt, alloc, &mut book, tables);
    drop(book);
    played
}

/// Plays the tables one after the other on a new book.
fn play_all(rt: &impl Abort, alloc: Global, tables: &[&[Row]]) -> Result<(), Fail> {
    play_from(rt, alloc, 1, tables)
}
