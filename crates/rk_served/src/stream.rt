//! The stream of a session.
ghost use Rattle.std.specs.Prelude.{◌≡◌, ◌==◌, Bool, length, IfOk, OnOk};
ghost use Rattle.rk_served.specs.Message.{IsNext};

use crate::occasion::Occasion;
use rk_core::{Answer, Book, EventStep};
use rk_frame::{Frames, Next};
use rk_message::{AskRef, AskStep, AskView};
use rk_names::{Errno, SessionId};
use std::alloc::{AllocError, Global};
use std::marker::Model;

/// What the next message of a stream has come to.
#[derive(Drop)]
pub enum Message {
    /// A whole body that spells an ask, which is answered so.
    Answered(Answer),
    /// An invalid body, by the error that it is answered.
    Refused(Errno),
    /// Nothing before more bytes come.
    More,
    /// A length that no frame has.
    Fault,
}

/// The bytes that came from a session and were not used yet. A stream that is shut takes none any more. Before bytes come it has no room for any.
#[derive(Drop)]
pub struct Stream {
    /// The frames that came, or `None` before any bytes.
    frames: Option<Frames>,
    /// Whether it takes no more bytes.
    is_shut: bool,
}

impl Model for Stream {
    ghost use Rattle.std.specs.Prelude.{[]};
    ghost use Rattle.std.specs.Option.{option_map_or};
    ghost use Rattle.rk_served.specs.Unused.{Unused};

    ghost Value = { Unused };

    ghost view = { λ s. record { bytes = option_map_or (λ f. f.bytes) s.frames []; is_shut = s.is_shut } };
}

impl Stream {
    ghost use Rattle.rk_served.specs.Streams.{no_bytes, lengthened, closed};
    ghost use Rattle.rk_served.specs.Message.{IsNext};

    /// No bytes yet. It takes no memory.
    pub fn new() -> Stream
        ensures { result ≡ no_bytes }
    {
        Stream {
            frames: None,
            is_shut: false,
        }
    }

    /// Takes the next bytes, or passes them over where it is shut. The only refusal is out of memory.
    pub fn feed(&mut self, alloc: Global, bytes: &[u8]) -> Result<(), AllocError>
        ensures { OnOk result (self.new ≡ lengthened bytes.now self.old) }
    {
        if self.is_shut {
            return Ok(());
        }
        match &mut self.frames {
            Some(frames) => frames.feed(bytes),
            None => {
                self.frames = Some(fed(alloc, bytes)?);
                Ok(())
            }
        }
    }

    /// Makes the ask of the next message, for this session; the stream goes on after it. So the ask is borrowed from the stream and never copied. The
    /// only refusal is out of memory for its payload.
    pub fn next(
        &mut self,
        book: &mut Book,
        occasion: &Occasion<'_>,
        who: &SessionId,
    ) -> Result<Message, AllocError>
        ensures { IfOk result (λ m. IsNext m who.now occasion.now.moment book.old self.old book.new self.new) }
    {
        match &mut self.frames {
            Some(frames) => next_in(frames, book, occasion, who),
            None => Ok(Message::More),
        }
    }

    /// Whether all bytes were used. Then nothing comes of it before more bytes do.
    pub fn is_used_up(&self) -> bool
        ensures { result ≡ (length self.now.bytes == 0) }
    {
        match &self.frames {
            Some(frames) => frames.held() == 0,
            None => true,
        }
    }

    /// Whether it is shut.
    pub fn is_shut(&self) -> bool
        ensures { result ≡ self.now.is_shut }
    {
        self.is_shut
    }

    /// Shuts it.
    pub fn shut(&mut self)
        ensures { self.new ≡ closed self.old }
    {
        self.is_shut = true;
    }
}

/// Frames of which these bytes are the first. The only refusal is out of memory.
fn fed(alloc: Global, bytes: &[u8]) -> Result<Frames, AllocError>
    ensures { IfOk result (λ f. f.bytes ≡ bytes.now) }
{
    let mut frames = Frames::new(alloc)?;
    frames.feed(bytes)?;
    Ok(frames)
}

/// Makes the ask of the next message of some frames, which go on after it. The only refusal is out of memory for its payload.
fn next_in(
    frames: &mut Frames,
    book: &mut Book,
    occasion: &Occasion<'_>,
    who: &SessionId,
) -> Result<Message, AllocError>
    ensures { (is_shut : Bool) → IfOk result (λ m. IsNext m who.now occasion.now.moment book.old
        (record { bytes = frames.old.bytes; is_shut = is_shut }) book.new (record { bytes = frames.new.bytes; is_shut = is_shut })) }
{
    match frames.next() {
        Next::Whole(body) => match AskView::read(body) {
            Ok(view) => {
                let ask = AskStep::of(occasion.alloc, AskRef::of(&view))?;
                let event = EventStep::Asked(*who, ask);
                Ok(Message::Answered(book.step(occasion.moment, event)))
            }
            Err(fault) => Ok(Message::Refused(fault.errno())),
        },
        Next::More => Ok(Message::More),
        Next::Fault(_) => Ok(Message::Fault),
    }
}
