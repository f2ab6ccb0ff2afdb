//! A peer: a client, or a construction with its handler.
ghost use Rattle.std.specs.Prelude.{◌≡◌, ◌++◌, true, IfOk, OnOk};
ghost use Rattle.rk_served.specs.OwnStep.{callout_to};

use crate::bytes::Bytes;
use crate::occasion::Occasion;
use crate::output::Output;
use crate::stream::{Message, Stream};
use rk_core::Book;
use rk_macro::Subject;
use rk_names::{Payload, Serial, SessionId};
use std::alloc::{AllocError, Global};

/// What a client or a construction has.
#[derive(Drop)]
pub enum Channel {
    /// A client, or a plain handler that runs: its stream.
    Talks(Stream),
    /// A construction whose command was output and not started yet: whether it is piped.
    Starts(bool),
    /// A piped handler that runs: what it has output.
    Pipes(Bytes),
}

impl Channel {
    ghost use Rattle.rk_served.specs.OwnStep.{channel_with, payload_in};
    ghost use Rattle.rk_served.specs.Channels.{is_stream, is_open, is_piped, shut_channel, IsNextAt, IsUsedUp};

    /// Whether it is a stream.
    pub fn is_stream(&self) -> bool
        ensures { result ≡ is_stream self.now }
    {
        matches!(self, Channel::Talks(_))
    }

    /// Whether it is a stream that is not shut.
    pub fn is_open(&self) -> bool
        ensures { result ≡ is_open self.now }
    {
        match self {
            Channel::Talks(stream) => !stream.is_shut(),
            Channel::Starts(_) | Channel::Pipes(_) => false,
        }
    }

    /// Whether no message can come of it before more bytes do.
    pub fn is_used_up(&self) -> bool
        ensures { result ≡ true → IsUsedUp self.now }
    {
        match self {
            Channel::Talks(stream) => stream.is_used_up(),
            Channel::Starts(_) | Channel::Pipes(_) => true,
        }
    }

    /// Takes the next bytes. The only refusal is out of memory.
    pub fn feed(&mut self, alloc: Global, bytes: &[u8]) -> Result<(), AllocError>
        ensures { OnOk result (self.new ≡ channel_with bytes.now self.old) }
    {
        match self {
            Channel::Talks(stream) => stream.feed(alloc, bytes),
            Channel::Pipes(held) => held.extend(bytes),
            Channel::Starts(_) => Ok(()),
        }
    }

    /// Whether a piped handler is to be started.
    pub fn is_piped(&self) -> bool
        ensures { result ≡ is_piped self.now }
    {
        match self {
            Channel::Starts(piped) => *piped,
            Channel::Talks(_) | Channel::Pipes(_) => false,
        }
    }

    /// Shuts a stream.
    pub fn shut(&mut self)
        ensures { self.new ≡ shut_channel self.old }
    {
        if let Channel::Talks(stream) = self {
            stream.shut();
        }
    }

    /// What a piped handler has output, where it can be a payload. It takes no memory.
    pub fn into_payload(self) -> Option<Payload>
        ensures { result ≡ payload_in self }
    {
        match self {
            Channel::Pipes(bytes) => Payload::new(bytes.into_vec()).ok(),
            Channel::Talks(_) | Channel::Starts(_) => None,
        }
    }

    /// Makes the ask of the next message of a stream, for this session. The only refusal is out of memory for its payload.
    pub fn next(
        &mut self,
        book: &mut Book,
        occasion: &Occasion<'_>,
        who: &SessionId,
    ) -> Result<Message, AllocError>
        ensures { IfOk result (λ m. IsNextAt m who.now occasion.now.moment book.old self.old book.new self.new) }
    {
        match self {
            Channel::Talks(stream) => stream.next(book, occasion, who),
            Channel::Pipes(_) | Channel::Starts(_) => Ok(Message::More),
        }
    }
}

/// A client, or the handler of a construction, and what it has.
#[derive(Drop)]
pub struct Peer {
    /// The client or handler.
    pub who: SessionId,
    /// Its stream, its start, or its output.
    pub channel: Channel,
    /// What a construction was made for. A client has none.
    pub subject: Option<Subject>,
}

impl Peer {
    ghost use Rattle.rk_served.specs.Channels.{callout_of};

    /// Outputs what the handler of a key is handed as it starts. The only refusal is out of memory.
    pub fn put_callout(
        &self,
        alloc: Global,
        key: Serial,
        out: &mut Vec<Output>,
    ) -> Result<(), AllocError>
        ensures { OnOk result (out.new.items ≡ out.old.items ++ callout_of key self.now.subject) }
    {
        match &self.subject {
            Some(subject) => put_callout(alloc, key, subject.callout.as_bytes(), out),
            None => Ok(()),
        }
    }
}

/// Puts out a callout, if it says something.
fn put_callout(
    alloc: Global,
    key: Serial,
    callout: &[u8],
    out: &mut Vec<Output>,
) -> Result<(), AllocError>
    ensures { OnOk result (out.new.items ≡ out.old.items ++ callout_to key callout.now) }
{
    if callout.is_empty() {
        return Ok(());
    }
    out.push(Output::ToHandler(key, Bytes::from_slice(alloc, callout)?))?;
    Ok(())
}
