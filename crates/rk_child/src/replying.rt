//! Replies to a plain handler.
ghost use Rattle.rk_devices.specs.Shown.{GoesOn};
ghost use Rattle.rk_child.specs.Replying.{EndsAsks};

use rk_devices::{Child, Gate};
use rk_names::{Errno, SessionId};
use rk_talk::{Platform, Saying, Stage, answer_frame, refusal_frame};

// Writes what is to be said, in one write, from this buffer where it takes memory; if there is no memory for the reply, it is out of memory. False if it
// can't be written, or nothing is to be said.
fn is_said<C: Child>(buffer: &mut Vec<u8>, child: &mut C, saying: Saying<'_>) -> bool
    ensures goes_on { GoesOn (C.shown child.old) (C.shown child.new) }
    ensures ends { EndsAsks result saying.entry (C.shown child.old) (C.shown child.new) }
{
    match saying {
        Saying::Noted(receipt) => match answer_frame(buffer, receipt.answer()) {
            Ok(bytes) => child.write(bytes.as_bytes()).is_ok(),
            Err(_) => child.write(&refusal_frame(Errno::Enomem)).is_ok(),
        },
        Saying::Short(errno) => child.write(&refusal_frame(errno)).is_ok(),
        Saying::Behind => false,
    }
}

/// Replies to the handler of this session, and tells the gate; a reply that takes memory lies in this buffer. False if its asks are at their end: the
/// reply can't be written, or there is none.
pub fn reply<P: Platform, C: Child>(
    stage: &Stage<'_, P>,
    buffer: &mut Vec<u8>,
    child: &mut C,
    session: SessionId,
    saying: Saying<'_>,
) -> bool
    ensures goes_on { GoesOn (C.shown child.old) (C.shown child.new) }
    ensures ends { EndsAsks result saying.entry (C.shown child.old) (C.shown child.new) }
{
    if !is_said(buffer, child, saying) {
        return false;
    }
    stage.gate.answered(stage.rt, session);
    true
}
