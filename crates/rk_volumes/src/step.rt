//! A step, written and read.
ghost use Rattle.std.specs.Prelude.{◌≡◌, ◌++◌, Err, IfOk, OnOk};
ghost use Rattle.rk_volumes.specs.Rules.{IsStep};
ghost use Rattle.rk_volumes.specs.Format.{step_bytes, HasNoStep};

use crate::answer_reading::read_answer;
use crate::answer_writing::put_answer;
use crate::event_reading::read_event;
use crate::event_writing::put_event;
use crate::fault::Unread;
use crate::numbers::{framed, long};
use rk_names::Moment;
use rk_record::Recorded;
use std::alloc::{AllocError, Global};

/// The step at the front of the bytes, and what follows it.
pub(crate) fn read_step(alloc: Global, bytes: &[u8]) -> Result<(Recorded, &[u8]), Unread>
    ensures is { IfOk result (λ x. IsStep x.0 × (bytes.now ≡ step_bytes x.0 ++ x.1.now)) }
    ensures none { result ≡ Err Unread.Bad → HasNoStep bytes.now }
{
    let Some((now, rest)) = long(bytes) else {
        return Err(Unread::Bad);
    };
    let Some((event, rest)) = framed(rest) else {
        return Err(Unread::Bad);
    };
    let Some((answer, rest)) = framed(rest) else {
        return Err(Unread::Bad);
    };
    let step = Recorded {
        now: Moment(now),
        event: read_event(alloc, event)?,
        answer: read_answer(alloc, answer)?,
    };
    Ok((step, rest))
}

/// Appends a step. An `Err` is out of memory, and a part of it may have been appended.
pub(crate) fn put_step(alloc: Global, out: &mut Vec<u8>, step: &Recorded) -> Result<(), AllocError>
    ensures bytes { OnOk result (out.new.items ≡ out.old.items ++ step_bytes step.entry.now) }
    ensures is { OnOk result (IsStep step.entry.now) }
{
    out.extend_from_slice(&step.now.0.to_be_bytes())?;
    put_event(alloc, out, &step.event)?;
    put_answer(alloc, out, &step.answer)
}
