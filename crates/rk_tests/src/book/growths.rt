//! A failed allocation leaves everything as it was, and the same step is made when it is tried again.
//!
//! With ample memory these only play their tables, on two books. They are for runs in which the Nth allocation fails (`rt try --test
//! --fail-alloc N`). The book that answers ENOMEM is compared with the other one, which has not yet taken the step.
use super::negating::{ENDED_BADLY, FOLLOWED_BY_NONE, NEGATED_BY_THE_SECOND};
use super::scenes::{
    A_HANDLER_ASKS, BOTH_ARE_MADE, BOTH_IN_THE_THREAD_RING, CLEARED_IN_THE_MAKING,
    GONE_WHILE_IT_WAITS, ITS_HANDLER_ACTS, MADE_BY_A_HANDLER, ONE_START_FOR_TWO, PIPED,
    PUT_OUT_A_BYTE, REVOKED_IN_THE_MAKING, STATES, THE_SAME_NAME_AGAIN, TOLD_ONE_AFTER_THE_OTHER,
};
use super::*;
use crate::book::answers::shown;
use crate::book::moves::{Line, Move};
use crate::book::words::Fault;
use crate::same::{same, same_text};
use rk_core::{Answer, Event};

/// Reads a line, once more if memory was refused.
fn read_surely(alloc: Global, line: &str) -> Result<Line, Fault> {
    match read(alloc, line) {
        Err(Fault::NoMemory) => read(alloc, line),
        answer => answer,
    }
}

/// The step of an event, once more if memory was refused for what the step takes.
fn step_surely(
    alloc: Global,
    book: &mut Book,
    now: Moment,
    event: &Event,
) -> Result<Answer, AllocError> {
    match book.step_of(alloc, now, event) {
        Err(AllocError) => book.step_of(alloc, now, event),
        answer => answer,
    }
}

/// Plays a line once, and prints the answer, once more if memory was refused for that.
fn said(alloc: Global, book: &mut Book, now: Moment, line: &str) -> Result<String, Fail> {
    match read_surely(alloc, line)?.told {
        Move::Step(event) => {
            let answer = step_surely(alloc, book, now, &event)?;
            match shown(alloc, &answer) {
                Ok(words) => Ok(words),
                Err(AllocError) => Ok(shown(alloc, &answer)?),
            }
        }
        question => match play(alloc, book, now, question) {
            Ok(words) => Ok(words),
            Err(AllocError) => Ok(play(alloc, book, now, read_surely(alloc, line)?.told)?),
        },
    }
}

/// The words of the lines that may be out of memory.
const WANTING: &[&str] = &["open", "hello", "read", "describe", "add", "callout"];

/// Which lines may be out of memory. A request may where it starts a construction.
fn may_want_memory(line: &str, answer: &str) -> bool {
    for word in line.split_whitespace() {
        if WANTING.contains(&word) {
            return true;
        }
    }
    answer.starts_with("start ")
}

/// Both books say the same to a line.
fn say_the_same(
    rt: &impl Abort,
    alloc: Global,
    one: &mut Book,
    other: &mut Book,
    now: Moment,
    line: &str,
) -> Result<(), Fail> {
    let ones = said(alloc, one, now, line)?;
    let others = said(alloc, other, now, line)?;
    same_text(rt, line, ones.as_str(), others.as_str());
    Ok(())
}

/// Sessions see the same keys in both books, and the books return the same of sessions and constructions.
fn are_alike(
    rt: &impl Abort,
    alloc: Global,
    one: &mut Book,
    other: &mut Book,
    now: Moment,
) -> Result<(), Fail> {
    for number in [1, 2, 3, 4, 5, 6, 204, 205] {
        for looks in [
            "c1 describe ",
            "c1 read ",
            "c2 describe ",
            "c2 read ",
            "c3 read ",
            "h3 read ",
            "h4 read ",
            "h5 read ",
            "waits c",
            "waits h",
            "ready c",
            "ready h",
            "owes gone c",
            "depth ",
        ] {
            let line = format!(in alloc; "{looks}{number}")?;
            say_the_same(rt, alloc, one, other, now, line.as_str())?;
        }
    }
    Ok(())
}

/// Plays a line on a book, which says this to it. Whether there was memory for that.
fn says(
    rt: &impl Abort,
    alloc: Global,
    book: &mut Book,
    now: Moment,
    line: &str,
    answer: &str,
) -> Result<bool, Fail> {
    let words = said(alloc, book, now, line)?;
    if words.as_str() == "E12" {
        return Ok(false);
    }
    same_text(rt, line, words.as_str(), answer);
    Ok(true)
}

/// Plays a row's line on one book. If it answers ENOMEM it has to be like the other one, and the line is played again.
fn play_surely(
    rt: &impl Abort,
    alloc: Global,
    one: &mut Book,
    other: &mut Book,
    now: Moment,
    row: &Row,
) -> Result<(), Fail> {
    let (line, answer) = *row;
    if says(rt, alloc, one, now, line, answer)? {
        return Ok(());
    }
    same(rt, (line, may_want_memory(line, answer)), (line, true));
    are_alike(rt, alloc, one, other, now)?;
    let is_said = says(rt, alloc, one, now, line, answer)?;
    same(rt, (line, is_said), (line, true));
    Ok(())
}

/// Plays a line on the other book, again where it answers ENOMEM.
fn follow(
    rt: &impl Abort,
    alloc: Global,
    other: &mut Book,
    now: Moment,
    line: &str,
    answer: &str,
) -> Result<(), Fail> {
    let is_said = says(rt, alloc, other, now, line, answer)?
        || says(rt, alloc, other, now, line, answer)?;
    same(rt, (line, is_said), (line, true));
    Ok(())
}

/// A new book, in the second attempt if memory was refused.
fn surely_new(rt: &impl Abort, alloc: Global) -> Result<Book, AllocError> {
    match new_book(rt, alloc, 1) {
        Ok(book) => Ok(book),
        Err(AllocError) => new_book(rt, alloc, 1),
    }
}

/// Plays the rows on two books, and gives the last moment back.
fn play_on_both(
    rt: &impl Abort,
    alloc: Global,
    one: &mut Book,
    other: &mut Book,
    now: Moment,
    rows: &[Row],
) -> Result<Moment, Fail> {
    let mut now = now;
    for row in rows {
        let (line, answer) = *row;
        now = read_surely(alloc, line)?.moment.unwrap_or(now);
        play_surely(rt, alloc, one, other, now, row)?;
        follow(rt, alloc, other, now, line, answer)?;
    }
    Ok(now)
}

/// Plays the tables on two books.
fn play_all_on_both(
    rt: &impl Abort,
    alloc: Global,
    one: &mut Book,
    other: &mut Book,
    tables: &[&[Row]],
) -> Result<(), Fail> {
    let mut now = Moment(0);
    for rows in tables {
        now = play_on_both(rt, alloc, one, other, now, rows)?;
    }
    Ok(())
}

/// Plays the tables on two new books.
fn play_twice(rt: &impl Abort, alloc: Global, tables: &[&[Row]]) -> Result<(), Fail> {
    let mut one = surely_new(rt, alloc)?;
    let mut other = surely_new(rt, alloc)?;
    let played = play_all_on_both(rt, alloc, &mut one, &mut other, tables);
    drop(one);
    drop(other);
    played
}

#[test]
fn growths_of_one_construction(rt: HostRuntime) -> Result<(), Fail> {
    play_twice(&rt, rt.alloc(), &[ALONE, MADE_BY_A_HANDLER])
}

#[test]
fn growths_of_two_requesters(rt: HostRuntime) -> Result<(), Fail> {
    play_twice(
        &rt,
        rt.alloc(),
        &[
            TWO,
            ONE_START_FOR_TWO,
            ITS_HANDLER_ACTS,
            TOLD_ONE_AFTER_THE_OTHER,
        ],
    )
}

#[test]
fn growths_of_nested_handlers(rt: HostRuntime) -> Result<(), Fail> {
    play_twice(
        &rt,
        rt.alloc(),
        &[
            THREAD,
            A_HANDLER_ASKS,
            BOTH_ARE_MADE,
            BOTH_IN_THE_THREAD_RING,
        ],
    )
}

#[test]
fn growths_of_a_second_start(rt: HostRuntime) -> Result<(), Fail> {
    play_twice(
        &rt,
        rt.alloc(),
        &[
            TWO,
            ONE_START_FOR_TWO,
            ITS_HANDLER_ACTS,
            REVOKED_IN_THE_MAKING,
        ],
    )
}

#[test]
fn growths_of_added_and_described_keys(rt: HostRuntime) -> Result<(), Fail> {
    play_twice(&rt, rt.alloc(), &[TWO, THE_SAME_NAME_AGAIN])?;
    play_twice(&rt, rt.alloc(), &[TWO, STATES])
}

#[test]
fn growths_of_rings_that_are_dropped(rt: HostRuntime) -> Result<(), Fail> {
    play_twice(&rt, rt.alloc(), &[THREAD, GONE_WHILE_IT_WAITS])?;
    play_twice(&rt, rt.alloc(), &[TWO, CLEARED_IN_THE_MAKING])
}

#[test]
fn growths_of_a_piped_handler(rt: HostRuntime) -> Result<(), Fail> {
    play_twice(&rt, rt.alloc(), &[ALONE, PIPED, PUT_OUT_A_BYTE])
}

#[test]
fn growths_of_a_second_handler(rt: HostRuntime) -> Result<(), Fail> {
    play_twice(
        &rt,
        rt.alloc(),
        &[ALONE, PIPED, ENDED_BADLY, FOLLOWED_BY_NONE],
    )?;
    play_twice(
        &rt,
        rt.alloc(),
        &[ALONE, PIPED, ENDED_BADLY, NEGATED_BY_THE_SECOND],
    )
}

/// Two clients of two users.
const TWO_USERS: &[Row] = &[
    ("100 open c1", "0"),
    ("c1 hello 1000 1000 0 0", "rings 0 0 1 2"),
    ("open c2", "0"),
    ("c2 hello 1001 1001 0 0", "rings 0 0 3 4"),
];

/// The line that adds this key, and its answer.
fn row_of(alloc: Global, key: u32) -> Result<(String, String), AllocError> {
    let line = format!(in alloc; "c1 add user k{key} v session")?;
    let answer = format!(in alloc; "{key}")?;
    Ok((line, answer))
}

/// Adds a key to a book.
fn add_surely(
    rt: &impl Abort,
    alloc: Global,
    book: &mut Book,
    now: Moment,
    key: u32,
) -> Result<(), Fail> {
    let (line, answer) = match row_of(alloc, key) {
        Ok(row) => row,
        Err(AllocError) => row_of(alloc, key)?,
    };
    follow(rt, alloc, book, now, line.as_str(), answer.as_str())
}

/// The first user has 200 keys.
fn fill(rt: &impl Abort, alloc: Global, book: &mut Book, now: Moment) -> Result<(), Fail> {
    for key in 5..205u32 {
        add_surely(rt, alloc, book, now, key)?;
    }
    Ok(())
}

/// The first user has 200 keys in both books, for which they have places from the beginning; then the rows are played.
fn play_when_both_are_full(
    rt: &impl Abort,
    alloc: Global,
    one: &mut Book,
    other: &mut Book,
    rows: &[Row],
) -> Result<(), Fail> {
    let now = play_on_both(rt, alloc, one, other, Moment(0), TWO_USERS)?;
    fill(rt, alloc, one, now)?;
    fill(rt, alloc, other, now)?;
    play_on_both(rt, alloc, one, other, now, rows)?;
    Ok(())
}

fn play_when_full(rt: &impl Abort, alloc: Global, rows: &[Row]) -> Result<(), Fail> {
    let mut one = surely_new(rt, alloc)?;
    let mut other = surely_new(rt, alloc)?;
    let played = play_when_both_are_full(rt, alloc, &mut one, &mut other, rows);
    drop(one);
    drop(other);
    played
}

const ANOTHER_KEY_IS_ADDED: &[Row] = &[
    ("c2 add user z v session", "205"),
    ("c2 read 205", "bytes v"),
    ("c2 add user y v session", "206"),
];

const ANOTHER_KEY_IS_STARTED: &[Row] = &[
    ("c2 request user z none x", "start 205"),
    ("launched 205 failed", "0"),
    ("collect c2", "E126"),
    ("c2 add user y v session", "206"),
];

#[test]
fn growths_of_a_key_past_two_hundred(rt: HostRuntime) -> Result<(), Fail> {
    play_when_full(&rt, rt.alloc(), ANOTHER_KEY_IS_ADDED)
}

#[test]
fn growths_of_a_start_past_two_hundred(rt: HostRuntime) -> Result<(), Fail> {
    play_when_full(&rt, rt.alloc(), ANOTHER_KEY_IS_STARTED)
}
