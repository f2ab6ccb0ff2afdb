//! Events as rows.
ghost use Rattle.std.specs.Prelude.{◌≡◌, ◌<◌, ◌≤◌, ◌++◌, ◌∷◌, length, IfOk, OnOk};
ghost use Rattle.rk_frame.specs.Framing.{frame};
ghost use Rattle.rk_volumes.specs.Kinds.{session_kind, session_number, status_of, put_out};
ghost use Rattle.rk_volumes.specs.Rows.{event_row, row_bytes};
ghost use Rattle.rk_volumes.specs.Rules.{IsSession, IsEvent, IsPutOut, IsTold};

use crate::kinds::{how_kind, ran_kind, session_kind, session_number, status_of};
use crate::row::put_row;
use rk_machine::{Event, How};
use rk_names::{Payload, SessionId};
use std::alloc::{AllocError, Global};

/// Appends the row of an event with its length before it. An `Err` is out of memory, and a part of it may have been appended.
pub(crate) fn put_event(alloc: Global, out: &mut Vec<u8>, event: &Event) -> Result<(), AllocError>
    ensures bytes { OnOk result (out.new.items ≡ out.old.items ++ frame (row_bytes (event_row event.now))) }
    ensures is { OnOk result (IsEvent event.now) }
    ensures told { OnOk result (IsTold (event_row event.now)) }
{
    match event {
        Event::Opened(id) => put_session(out, 1, id, &[]),
        Event::Asked(id, ask) => {
            let mut body = Vec::with_capacity(alloc, ask.body_len())?;
            ask.write_into(&mut body)?;
            put_session(out, 2, id, &body)
        }
        Event::Launched(key, ran) => put_row(out, 3, ran_kind(*ran), key.get(), &[]),
        Event::Ended(key, how, payload) => {
            let rest = ending(alloc, *how, payload)?;
            put_row(out, 4, how_kind(*how), key.get(), &rest)
        }
        Event::Collect(id) => put_session(out, 5, id, &[]),
        Event::Gone(id) => put_session(out, 6, id, &[]),
    }
}

/// Appends a row that names a session, after its length.
fn put_session(out: &mut Vec<u8>, kind: u8, id: &SessionId, rest: &[u8]) -> Result<(), AllocError>
    requires { length rest.now ≤ 131072 }
    ensures bytes { OnOk result (out.new.items ≡ out.old.items
        ++ frame (row_bytes (record { kind = kind; how = session_kind id.now; number = session_number id.now; rest = rest.now }))) }
    ensures told { IsTold (record { kind = kind; how = session_kind id.now; number = session_number id.now; rest = rest.now }) }
    ensures rule { IsSession id.now }
{
    put_row(out, kind, session_kind(id), session_number(id), rest)
}

/// The status of a handler, and its output.
fn ending(alloc: Global, how: How, payload: &Option<Payload>) -> Result<Vec<u8>, AllocError>
    ensures bytes { IfOk result (λ v. v.items ≡ status_of how ∷ put_out payload.now) }
    ensures fits { IfOk result (λ v. length v.items ≤ 32768) }
    ensures rule { IsPutOut payload.now }
    ensures status { status_of how < 256 }
{
    let bytes = match payload {
        None => &[],
        Some(payload) => payload.as_bytes(),
    };
    let mut rest = Vec::with_capacity(alloc, 1 + bytes.len())?;
    rest.push(status_of(how))?;
    rest.extend_from_slice(bytes)?;
    Ok(rest)
}
