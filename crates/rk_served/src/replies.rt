//! Replies as outputs.
ghost use Rattle.std.specs.Prelude.{◌≡◌, ◌++◌, IfOk, OnOk};
ghost use Rattle.rk_frame.specs.Framing.{frame};
ghost use Rattle.rk_message.specs.Wire.{spelling};
ghost use Rattle.rk_message.specs.Replies.{reply_message};
ghost use Rattle.rk_served.specs.Left.{reply_to, replies_to};

use crate::bytes::Bytes;
use crate::output::Output;
use rk_core::Answer;
use rk_message::Reply;
use rk_names::SessionId;
use std::alloc::{AllocError, Global};

/// A reply with its length before it.
fn reply_frame(alloc: Global, reply: &Reply) -> Result<Bytes, AllocError>
    ensures { IfOk result (λ b. b ≡ frame (spelling (reply_message reply.now))) }
{
    let len = reply.body_len();
    let mut bytes = Vec::with_capacity(alloc, 4 + len)?;
    bytes.extend_from_slice(&(len as u32).to_be_bytes())?;
    reply.write_into(&mut bytes)?;
    Ok(Bytes::new(bytes))
}

/// A reply to a session.
pub fn reply_to(alloc: Global, who: &SessionId, reply: &Reply) -> Result<Output, AllocError>
    ensures { IfOk result (λ o. o ≡ reply_to who.now reply.now) }
{
    let bytes = reply_frame(alloc, reply)?;
    match who {
        SessionId::Client(client) => Ok(Output::ToClient(*client, bytes)),
        SessionId::Handler(key) => Ok(Output::ToHandler(*key, bytes)),
    }
}

/// Puts out the reply to a session, if the answer has one.
pub fn put_reply(
    alloc: Global,
    who: &SessionId,
    answer: Answer,
    out: &mut Vec<Output>,
) -> Result<(), AllocError>
    ensures { OnOk result (out.new.items ≡ out.old.items ++ replies_to who.now answer) }
{
    let reply = match answer {
        Answer::Done(reply) => reply,
        Answer::Refused(errno) => Reply::Refused(errno),
        Answer::Start(_, _) | Answer::Waiting(_) | Answer::Negate(_) => return Ok(()),
    };
    out.push(reply_to(alloc, who, &reply)?)?;
    Ok(())
}
