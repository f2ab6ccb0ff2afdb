//! Replies in frames.
ghost use Rattle.std.specs.Prelude.{◌≡◌, Some, IfOk, IfErr, OnOk};
ghost use Rattle.rk_message.specs.declared.reply.Reply.TheVariants as reply;
ghost use Rattle.rk_talk.specs.Replies.{reply_bytes, LacksFrame, ReplyFramed, TakesMemory};

use crate::frame::Frame;
use rk_machine::Answer;
use rk_message::{Reply, ReplyBytes};
use rk_names::Errno;
use std::alloc::AllocError;

/// A reply with its length before it, in the place of the one before.
#[tactic(auto, unfolding(crate::specs::Replies::reply_bytes))]
fn reply_frame(buffer: &mut Vec<u8>, reply: &Reply) -> Result<(), AllocError>
    ensures { OnOk result (buffer.new.items ≡ reply_bytes reply.now) }
{
    let len = reply.body_len();
    buffer.clear();
    buffer.reserve(4 + len)?;
    buffer.extend_from_slice(&(len as u32).to_be_bytes())?;
    reply.write_into(buffer)
}

/// A payload with its length before it, in the place of the one before.
#[tactic(auto, unfolding(crate::specs::Replies::reply_bytes, rk_message::specs::Wire::spelled))]
fn payload_frame(buffer: &mut Vec<u8>, payload: &ReplyBytes) -> Result<(), AllocError>
    ensures { OnOk result (buffer.new.items ≡ reply_bytes (reply.Bytes payload.now)) }
{
    let bytes = payload.as_bytes();
    buffer.clear();
    buffer.reserve(7 + bytes.len())?;
    buffer.extend_from_slice(&((3 + bytes.len()) as u32).to_be_bytes())?;
    buffer.push(1)?;
    buffer.extend_from_slice(&(bytes.len() as u16).to_be_bytes())?;
    buffer.extend_from_slice(bytes)
}

/// A number with its length before it, as most replies are. It takes no memory.
#[tactic(auto, unfolding(crate::specs::Replies::reply_bytes, rk_message::specs::Wire::spelled))]
fn number_frame(number: u32) -> [u8; 9]
    ensures { result ≡ reply_bytes (reply.Number number) }
{
    let [first, second, third, fourth] = number.to_be_bytes();
    [0, 0, 0, 5, 0, first, second, third, fourth]
}

/// A refusal with its length before it. It takes no memory, so that ENOMEM can be replied too.
#[tactic(auto, unfolding(crate::specs::Replies::reply_bytes))]
pub fn refusal_frame(errno: Errno) -> [u8; 6]
    ensures { result ≡ reply_bytes (reply.Refused errno) }
{
    let [kind, number] = Reply::refusal(errno);
    [0, 0, 0, 2, kind, number]
}

/// A reply with its length before it. Only bytes and the serials of rings take memory, and lie in this buffer then.
#[inline(always)]
fn framed<'a>(buffer: &'a mut Vec<u8>, reply: &Reply) -> Result<Frame<'a>, AllocError>
    ensures framed { IfOk result (λ b. b ≡ reply_bytes reply.now) }
    ensures memory { IfErr result (λ e. TakesMemory (Some reply.now)) }
{
    match reply {
        Reply::Number(number) => Ok(Frame::number(number_frame(*number))),
        Reply::Refused(errno) => Ok(Frame::refusal(refusal_frame(*errno))),
        Reply::Bytes(payload) => {
            payload_frame(buffer, payload)?;
            Ok(Frame::other(buffer))
        }
        Reply::Rings { .. } => {
            reply_frame(buffer, reply)?;
            Ok(Frame::other(buffer))
        }
    }
}

/// What an answer says to the session that asked, with its length before it. A number and a refusal take no memory, and any other reply lies in this buffer,
/// which grows where it is too small. An `Err` is out of memory; an answer that says nothing, of a session that waits, is refused as that too.
#[inline(always)]
pub fn answer_frame<'a>(buffer: &'a mut Vec<u8>, answer: &Answer) -> Result<Frame<'a>, AllocError>
    ensures framed { IfOk result (λ b. ReplyFramed answer.now b) }
    ensures memory { IfErr result (λ e. LacksFrame answer.now) }
{
    match answer {
        Answer::Done(reply) => framed(buffer, reply),
        Answer::Refused(errno) => Ok(Frame::refusal(refusal_frame(*errno))),
        Answer::Start(_, _) | Answer::Waiting(_) | Answer::Negate(_) => Err(AllocError),
    }
}
