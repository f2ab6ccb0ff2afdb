//! Replies out of bodies: a function for each kind, and the choice among them.

ghost use Rattle.std.specs.Prelude.{◌≡◌, IfOk, MatchResult, Err};
ghost use Rattle.rk_message.specs.Wire.{spelling};
ghost use Rattle.rk_message.specs.Table.{replies};
ghost use Rattle.rk_message.specs.Reading.{Reads, Gives, message_behind, message_at};
ghost use Rattle.rk_message.specs.Replies.{IsReply, reply_message};
ghost use Rattle.rk_message.specs.Leftmost.{IsFaultOf};
ghost use Rattle.rk_message.specs.declared.reply.Reply.{Reply as Replies};
ghost use Rattle.rk_message.specs.declared.fault.Fault.{Fault as Faults};
ghost use Rattle.rk_message.specs.declared.fault.ReadError.TheVariants.{NoMemory, Fault as the_fault};

use crate::fault::{Fault, ReadError};
use crate::field;
use crate::reply::{Reply, ReplyBytes};
use std::alloc::Global;

impl Reply {
    /// The reply that all of the body spells. `Err(Fault(..))` is the leftmost fault of a body that
    /// spells none; it is found before any memory is taken.
    pub fn read(alloc: Global, body: &[u8]) -> Result<Reply, ReadError>
        // What is read is spelled by the body.
        ensures found { IfOk result (λ r. IsReply r × (body.now ≡ spelling (reply_message r))) }
        // A reply that the body spells is read, unless memory runs out.
        ensures only { (r : Replies) → IsReply r → body.now ≡ spelling (reply_message r) → MatchResult result (λ s. s ≡ r) (λ e. e ≡ NoMemory) }
        // A body that has no reading is refused for its leftmost fault.
        ensures leftmost { (f : Faults) → result ≡ Err (the_fault f) → IsFaultOf replies body.now f }
        // Which reply or fault it is; memory runs out only for what has a reading.
        ensures exact { Gives reply_message result (message_at replies body.now) }
    {
        read_body(alloc, body)
    }
}

#[tactic(auto, unfolding(crate::specs::Reading::message_at))]
fn read_body(alloc: Global, body: &[u8]) -> Result<Reply, ReadError>
    ensures { Gives reply_message result (message_at replies body.now) }
{
    match body {
        [] => Err(ReadError::Fault(Fault::Short)),
        [kind, rest @ ..] => read_behind(alloc, *kind, rest),
    }
}

/// The reply of this kind with these fields.
#[tactic(auto, unfolding(crate::specs::Reading::message_behind))]
fn read_behind(alloc: Global, kind: u8, rest: &[u8]) -> Result<Reply, ReadError>
    ensures { Gives reply_message result (message_behind replies kind rest.now) }
{
    match kind {
        0 => Ok(number(rest)?),
        1 => bytes(alloc, rest),
        2 => Ok(rings(rest)?),
        3 => Ok(refused(rest)?),
        _ => Err(ReadError::Fault(Fault::UnknownOp)),
    }
}

#[tactic(auto, unfolding(crate::specs::Reading::message_behind, crate::specs::Reading::all_values, crate::specs::Reading::values_at))]
fn number(rest: &[u8]) -> Result<Reply, Fault>
    ensures { Reads reply_message result (message_behind replies 0 rest.now) }
{
    let (number, rest) = field::word(rest)?;
    field::end(rest)?;
    Ok(Reply::Number(number))
}

#[tactic(auto, unfolding(crate::specs::Reading::message_behind, crate::specs::Reading::all_values, crate::specs::Reading::values_at))]
fn bytes(alloc: Global, rest: &[u8]) -> Result<Reply, ReadError>
    ensures { Gives reply_message result (message_behind replies 1 rest.now) }
{
    let (bytes, rest) = field::reply_block(rest)?;
    field::end(rest)?;
    Ok(Reply::Bytes(ReplyBytes::from_checked(alloc, bytes)?))
}

#[tactic(auto, unfolding(crate::specs::Reading::message_behind, crate::specs::Reading::all_values, crate::specs::Reading::values_at))]
fn rings(rest: &[u8]) -> Result<Reply, Fault>
    ensures { Reads reply_message result (message_behind replies 2 rest.now) }
{
    let (thread, rest) = field::word(rest)?;
    let (process, rest) = field::word(rest)?;
    let (session, rest) = field::word(rest)?;
    let (user, rest) = field::word(rest)?;
    field::end(rest)?;
    Ok(Reply::Rings {
        thread,
        process,
        session,
        user,
    })
}

#[tactic(auto, unfolding(crate::specs::Reading::message_behind, crate::specs::Reading::all_values, crate::specs::Reading::values_at))]
fn refused(rest: &[u8]) -> Result<Reply, Fault>
    ensures { Reads reply_message result (message_behind replies 3 rest.now) }
{
    let (errno, rest) = field::errno(rest)?;
    field::end(rest)?;
    Ok(Reply::Refused(errno))
}
