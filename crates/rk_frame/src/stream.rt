//! The frames of a stream.

ghost use Rattle.std.specs.Prelude.{◌≡◌, ◌≤◌, ◌+◌, [], length, IfOk, OnOk, OnErr, IsOk};
ghost use Rattle.std.specs.Borrow.{sem};
ghost use Rattle.std.specs.Io.BufRead.{Rests};

use crate::RESERVED;
use crate::answer::Next;
use crate::buffer::{drop_front, is_worth_moving};
use crate::front::{Front, front_of};
use std::alloc::{AllocError, Global};
use std::marker::Model;

/// The bytes of a stream that were fed and not handed out.
///
/// Its room grows with what is held at one time, and is not given back before the value is dropped.
#[derive(Drop)]
pub struct Frames {
    /// The bytes that were fed, from some frame's front on.
    buffer: Vec<u8>,
    /// How many bytes at the buffer's front were handed out.
    taken: usize,
}

impl Model for Frames {
    ghost use Rattle.std.specs.Prelude.{◌≤◌, ◌-◌, drop, vec_len, vec_capacity};
    ghost use Rattle.rk_frame.specs.Unread.{Unread};

    ghost Value = { Unread };

    ghost view = { λ f. record {
      bytes = drop f.taken f.buffer.items;
      room = vec_capacity f.buffer - vec_len f.buffer;
    } };

    ghost invariant = { λ f. (f.taken ≤ vec_len f.buffer) × (69635 ≤ vec_capacity f.buffer) };
}

impl Frames {
    ghost use Rattle.rk_frame.specs.Calls.{Makes, Fed};
    ghost use Rattle.rk_frame.specs.Answer.{Leaves};
    ghost use Rattle.rk_frame.specs.contracts.stream.Frames.{the_row};

    /// No bytes yet, and room for [`RESERVED`] of them. The only refusal is out of memory.
    pub fn new(alloc: Global) -> Result<Frames, AllocError>
        ensures empty { IfOk result (λ f. f.bytes ≡ []) }
        ensures room { IfOk result (λ f. f.room ≡ 69635) }
    {
        let buffer = Vec::with_capacity(alloc, RESERVED)?;
        Ok(Frames { buffer, taken: 0 })
    }

    /// How many bytes were fed and not handed out: at most 65,539 if `next` answers `More`. It
    /// takes no memory.
    pub fn held(&self) -> usize
        ensures { result ≡ length self.now.bytes }
    {
        self.buffer.len() - self.taken
    }

    /// Takes the next piece of the stream, of any length.
    ///
    /// It is refused only if an allocation failed, and then nothing has changed. Pieces that
    /// together have no more bytes than the room that is left are never refused; after `More`, and at
    /// first, that is [`MAX_PIECE`](crate::MAX_PIECE) bytes or more.
    #[inline(always)]
    pub fn feed(&mut self, piece: &[u8]) -> Result<(), AllocError>
        ensures ok { OnOk result (Makes (Fed piece.now) self.old.bytes self.new.bytes) }
        ensures room { OnOk result (self.old.room ≤ self.new.room + length piece.now) }
        ensures err { OnErr result (self.new ≡ self.old) }
        ensures succeeds { length piece.now ≤ self.old.room → IsOk result }
    {
        if is_worth_moving(&self.buffer, self.taken, piece.len()) {
            drop_front(&mut self.buffer, self.taken);
            self.taken = 0;
        }
        self.buffer.reserve(piece.len())?;
        self.buffer.extend_from_slice(piece)
    }

    /// The next body of the stream, lent until the next call.
    ///
    /// If no whole frame is left it is `More`, or the fault that stands there, which is answered
    /// from then on whatever is fed. It takes no memory.
    pub fn next(&mut self) -> Next<'_>
        ensures* after_borrow { sem 𝓛 (Rests the_row self.entry (λ new. Leaves result self.old new)) }
    {
        match front_of(&self.buffer[self.taken..]) {
            Front::Whole(len) => {
                let from = self.taken + 4;
                self.taken = from + len;
                Next::Whole(&self.buffer[from..from + len])
            }
            Front::Short => {
                drop_front(&mut self.buffer, self.taken);
                self.taken = 0;
                Next::More
            }
            Front::Bad(fault) => Next::Fault(fault),
        }
    }
}
