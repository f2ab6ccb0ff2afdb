//! Answers out of rows.
ghost use Rattle.std.specs.Prelude.{◌≡◌, ◌≢◌, [], Err, IfOk, MatchOption};
ghost use Rattle.rk_names.specs.Numbers.{errno_number};
ghost use Rattle.rk_volumes.specs.Rows.{answer_row, row_bytes};
ghost use Rattle.rk_volumes.specs.Rules.{IsSerial, IsAnswer};
ghost use Rattle.rk_volumes.specs.Reading.{row_by, IsNoAnswer, HasNoAnswer};

use crate::fault::Unread;
use crate::kinds::op;
use crate::row::Row;
use crate::subject::read_subject;
use rk_machine::{Answer, BoxedSubject};
use rk_message::Reply;
use rk_names::{Errno, Serial};
use std::alloc::Global;

/// The answer that all of the bytes are.
pub(crate) fn read_answer(alloc: Global, body: &[u8]) -> Result<Answer, Unread>
    ensures is { IfOk result (λ a. IsAnswer a × (body.now ≡ row_bytes (answer_row a))) }
    ensures none { result ≡ Err Unread.Bad → HasNoAnswer body.now }
{
    let Some(row) = Row::read(body) else {
        return Err(Unread::Bad);
    };
    answer_of(alloc, &row)
}

/// The answer of a row.
fn answer_of(alloc: Global, row: &Row<'_>) -> Result<Answer, Unread>
    ensures is { IfOk result (λ a. IsAnswer a × (answer_row a ≡ row_by row.now)) }
    ensures none { result ≡ Err Unread.Bad → IsNoAnswer (row_by row.now) }
{
    match row.kind {
        1 => done(alloc, row),
        2 => start(alloc, row),
        3 => match lone_key(row) {
            Some(key) => Ok(Answer::Negate(key)),
            None => Err(Unread::Bad),
        },
        4 => match lone_key(row) {
            Some(key) => Ok(Answer::Waiting(key)),
            None => Err(Unread::Bad),
        },
        5 => refused(row),
        _ => Err(Unread::Bad),
    }
}

/// A reply.
fn done(alloc: Global, row: &Row<'_>) -> Result<Answer, Unread>
    requires { row.now.kind ≡ 1 }
    ensures is { IfOk result (λ a. IsAnswer a × (answer_row a ≡ row_by row.now)) }
    ensures none { result ≡ Err Unread.Bad → IsNoAnswer (row_by row.now) }
{
    if row.how != 0 || row.number != 0 {
        return Err(Unread::Bad);
    }
    let reply = Reply::read(alloc, row.rest)?;
    Ok(Answer::Done(reply))
}

/// What is started for a key.
fn start(alloc: Global, row: &Row<'_>) -> Result<Answer, Unread>
    requires { row.now.kind ≡ 2 }
    ensures is { IfOk result (λ a. IsAnswer a × (answer_row a ≡ row_by row.now)) }
    ensures none { result ≡ Err Unread.Bad → IsNoAnswer (row_by row.now) }
{
    let Some(key) = Serial::new(row.number) else {
        return Err(Unread::Bad);
    };
    let Some(op) = op(row.how) else {
        return Err(Unread::Bad);
    };
    let subject = read_subject(alloc, op, row.rest)?;
    match BoxedSubject::new(alloc, subject) {
        Ok(subject) => Ok(Answer::Start(key, subject)),
        Err(_) => Err(Unread::NoMemory),
    }
}

/// The key that a row has with nothing beside it.
fn lone_key(row: &Row<'_>) -> Option<Serial>
    ensures { MatchOption result (row.now.how ≡ 0 → row.now.rest.now ≡ [] → ¬ IsSerial row.now.number)
        (λ k. IsSerial k × (row.now.number ≡ k) × (row.now.how ≡ 0) × (row.now.rest.now ≡ [])) }
{
    if row.how != 0 || !row.rest.is_empty() {
        return None;
    }
    Serial::new(row.number)
}

/// An error.
fn refused(row: &Row<'_>) -> Result<Answer, Unread>
    requires { row.now.kind ≡ 5 }
    ensures is { IfOk result (λ a. IsAnswer a × (answer_row a ≡ row_by row.now)) }
    ensures none { result ≡ Err Unread.Bad → IsNoAnswer (row_by row.now) }
{
    if row.number != 0 || !row.rest.is_empty() {
        return Err(Unread::Bad);
    }
    match Errno::from_number(row.how) {
        Some(errno) => Ok(Answer::Refused(errno)),
        None => Err(Unread::Bad),
    }
}
