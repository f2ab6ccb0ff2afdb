//! Events out of rows.
ghost use Rattle.std.specs.Prelude.{◌≡◌, ◌≢◌, [], ◌∷◌, ℕ, List, Option, Err, IfOk, MatchOption};
ghost use Rattle.rk_message.specs.Wire.{spelling};
ghost use Rattle.rk_message.specs.Asks.{ask_message};
ghost use Rattle.rk_machine.specs.declared.event.How.{How as Hows};
ghost use Rattle.rk_machine.specs.declared.event.Ran.{Ran as Rans};
ghost use Rattle.rk_message.specs.Ask.{Ask as Asks};
ghost use Rattle.rk_names.specs.declared.numbers.SessionId.{SessionId as Sessions};
ghost use Rattle.rk_volumes.specs.Kinds.{session_kind, session_number, ran_kind, how_kind, status_of, put_out};
ghost use Rattle.rk_volumes.specs.Rows.{event_row, row_bytes};
ghost use Rattle.rk_volumes.specs.Rules.{IsSerial, IsSession, IsEvent, IsPutOut};
ghost use Rattle.rk_volumes.specs.Reading.{row_by, NamesSession, NamesNone, IsNoEvent, HasNoEvent};

use crate::fault::Unread;
use crate::kinds::{how, ran, session};
use crate::row::Row;
use rk_machine::{Event, How};
use rk_message::Ask;
use rk_names::{Payload, Serial, SessionId};
use std::alloc::Global;

/// The event that all of the bytes are.
pub(crate) fn read_event(alloc: Global, body: &[u8]) -> Result<Event, Unread>
    ensures is { IfOk result (λ e. IsEvent e × (body.now ≡ row_bytes (event_row e))) }
    ensures none { result ≡ Err Unread.Bad → HasNoEvent body.now }
{
    let Some(row) = Row::read(body) else {
        return Err(Unread::Bad);
    };
    event_of(alloc, &row)
}

/// The event of a row.
fn event_of(alloc: Global, row: &Row<'_>) -> Result<Event, Unread>
    ensures is { IfOk result (λ e. IsEvent e × (event_row e ≡ row_by row.now)) }
    ensures none { result ≡ Err Unread.Bad → IsNoEvent (row_by row.now) }
{
    match row.kind {
        1 => match lone_session(row) {
            Some(id) => Ok(Event::Opened(id)),
            None => Err(Unread::Bad),
        },
        2 => asked(alloc, row),
        3 => launched(row),
        4 => ended(alloc, row),
        5 => match lone_session(row) {
            Some(id) => Ok(Event::Collect(id)),
            None => Err(Unread::Bad),
        },
        6 => match lone_session(row) {
            Some(id) => Ok(Event::Gone(id)),
            None => Err(Unread::Bad),
        },
        _ => Err(Unread::Bad),
    }
}

/// The session that a row names with nothing after it.
fn lone_session(row: &Row<'_>) -> Option<SessionId>
    ensures { MatchOption result (row.now.rest.now ≡ [] → NamesNone (row_by row.now))
        (λ s. IsSession s × NamesSession (row_by row.now) s × (row.now.rest.now ≡ [])) }
{
    if !row.rest.is_empty() {
        return None;
    }
    session(row.how, row.number)
}

/// A session asks.
fn asked(alloc: Global, row: &Row<'_>) -> Result<Event, Unread>
    requires { row.now.kind ≡ 2 }
    ensures is { IfOk result (λ e. IsEvent e × (event_row e ≡ row_by row.now)) }
    ensures none { result ≡ Err Unread.Bad → IsNoEvent (row_by row.now) }
{
    let Some(id) = session(row.how, row.number) else {
        return Err(Unread::Bad);
    };
    let ask = Ask::read(alloc, row.rest)?;
    Ok(Event::Asked(id, ask))
}

/// What became of a start.
fn launched(row: &Row<'_>) -> Result<Event, Unread>
    requires { row.now.kind ≡ 3 }
    ensures is { IfOk result (λ e. IsEvent e × (event_row e ≡ row_by row.now)) }
    ensures none { result ≡ Err Unread.Bad → IsNoEvent (row_by row.now) }
{
    let Some(key) = Serial::new(row.number) else {
        return Err(Unread::Bad);
    };
    let Some(ran) = ran(row.how) else {
        return Err(Unread::Bad);
    };
    if !row.rest.is_empty() {
        return Err(Unread::Bad);
    }
    Ok(Event::Launched(key, ran))
}

/// The end of a handler.
fn ended(alloc: Global, row: &Row<'_>) -> Result<Event, Unread>
    requires { row.now.kind ≡ 4 }
    ensures is { IfOk result (λ e. IsEvent e × (event_row e ≡ row_by row.now)) }
    ensures none { result ≡ Err Unread.Bad → IsNoEvent (row_by row.now) }
{
    let Some((status, rest)) = row.rest.split_first() else {
        return Err(Unread::Bad);
    };
    let Some(key) = Serial::new(row.number) else {
        return Err(Unread::Bad);
    };
    let Some(how) = how(row.how, *status) else {
        return Err(Unread::Bad);
    };
    let payload = payload_of(alloc, rest)?;
    Ok(Event::Ended(key, how, payload))
}

/// The output of a handler.
fn payload_of(alloc: Global, bytes: &[u8]) -> Result<Option<Payload>, Unread>
    ensures is { IfOk result (λ p. IsPutOut p × (bytes.now ≡ put_out p)) }
    ensures none { result ≡ Err Unread.Bad → (p : Option (List ℕ)) → IsPutOut p → bytes.now ≢ put_out p }
{
    if bytes.is_empty() {
        return Ok(None);
    }
    if Payload::fault(bytes).is_some() {
        return Err(Unread::Bad);
    }
    let copy = Vec::from_slice(alloc, bytes)?;
    Ok(Some(Payload::from_checked(copy)))
}
