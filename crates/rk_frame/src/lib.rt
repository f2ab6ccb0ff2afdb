//! Messages out of a stream of bytes.
//!
//! # Purpose
//!
//! A socket or a pipe gives bytes in pieces that end anywhere. The messages in them are framed: a
//! frame is the length of its body, as four bytes with the greatest first, and then the body, of 1
//! to 65,536 bytes. [`Frames`] takes the pieces as they come and hands out the bodies, in order.
//!
//! # What it promises
//!
//! A stream has exactly one list of bodies, followed by a rest at whose front no whole frame stands.
//! However the stream was cut into pieces, and whenever the bodies were asked for, `next` hands out
//! the bodies of that list and nothing else. It answers [`Next::More`] or a fault exactly if no
//! body of the stream so far is left. A length of 0 or above 65,536 is a fault once its four bytes
//! are there. It is answered after all bodies before it, and from then on for good.
//!
//! `next` takes no memory. After `More` less than one frame is held, at most 65,539 bytes, and a
//! piece of at most 4,096 bytes finds its room made before. A failed allocation changes nothing.
//!
//! # Use
//!
//! Make a `Frames`, and ask for `next` until it answers `More`: each `Whole(body)` lends a body until
//! the next call. Then read a piece and `feed` it, and ask again. If it answers `Fault`, no frame
//! can be found after it any more, so the stream is at its end. Fed the bytes `00 00 00 02 68 69
//! 00`, it answers `Whole(b"hi")` and then `More`, and `held` says 1.
//!
//! # How it is built
//!
//! `stream` has [`Frames`]: one buffer, and how many of its bytes have been handed out. Handing out a
//! body moves no byte. What is left moves to the front of the buffer at `More`, which is once at most
//! for each byte. It also moves where `feed` would have to grow the buffer though at least half of it
//! has been handed out. So the work is in proportion to the bytes, for pieces of one byte too. `buffer`
//! has that move, `front` reads the length at the front, `answer` and `fault` have what `next` answers, and `law` the one law.
//!
//! `specs/Framing.antt` says what a frame is and what the bodies of a stream are, `specs/Calls.antt`
//! what one call does. The contracts of `feed` and `next` cite one relation, and [`any_cutting`]
//! draws from it what holds after any list of calls.
#![tactic(auto)]

mod answer;
mod buffer;
mod fault;
mod front;
mod law;
mod stream;

pub use answer::Next;
pub use fault::FrameFault;
pub use law::any_cutting;
pub use stream::Frames;

/// The longest body of a frame, in bytes.
pub const MAX_BODY: usize = 65_536;

/// The longest piece, in bytes, that [`Frames::feed`] takes after `More` without memory.
pub const MAX_PIECE: usize = 4_096;

/// The most reads of one stream, whether a client's, a handler's output or a script. Each asks for a
/// piece of [`MAX_PIECE`] bytes.
pub const MAX_READS: u32 = 1_048_576;

/// The bytes that [`Frames::new`] reserves: a frame that lacks one byte, of 65,539 bytes, and the
/// longest piece after it.
pub const RESERVED: usize = 69_635;
