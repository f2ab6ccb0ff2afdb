//! What a session asks of a request_key daemon and what it is answered, as bytes.
//!
//! # Purpose
//!
//! A session sends an [`Ask`] as the body of a frame and gets a [`Reply`] as the body of another. A
//! body is a first byte, which says what the message is, and then fields. A number has one or four
//! bytes with the highest first, `i32` in two's complement. Texts and payloads stand after their
//! length of two bytes, a callout after a byte 0 (none) or 1. Each ask and each reply has one
//! spelling, and each body has at most one reading.
//!
//! # Reading and writing
//!
//! `Ask::read(alloc, body)` on the bytes `03 00000003` is `Ask::Assume { key: 3 }`, and `Ask::Assume {
//! key: 3 }.write(alloc)` is those bytes again. A body that spells nothing has one [`Fault`], its
//! leftmost. `03 0000` is short, `03 00000003 00` has trailing bytes, and `ff` is an unknown op. A
//! field that breaks its rule is bad and carries its errno. `Fault::errno` says what the session is
//! answered. Out of memory comes only for a body that has a reading.
//!
//! All asks are one enum, [`AskOf`], over the types of their parts. An [`Ask`] owns its names and its payload. An [`AskView`] borrows them from the body,
//! and takes no memory. `AskView::read(body)` reads as `Ask::read(alloc, body)` does, and `to_owned` and `view` lead from one to the other.
//!
//! Three more are an ask that stands elsewhere, and contracts see each as that ask. An [`AskRef`] is a reference to a view. An [`AskStep`] has a payload of
//! its own besides: what a step takes, since the payload becomes a key's. An [`AskCopy`] has the memory that a copy takes, so that `into_ask` takes none;
//! its `step` shares the payload.
//!
//! To write a reply with its length before it into one buffer, ask `body_len` for the length and call `write_into`, which
//! reserves once and then appends. `Reply::refusal(errno)` is the body of a refusal and takes no
//! memory, so that ENOMEM can always be answered.
//!
//! # The table of asks
//!
//! [`AskShape::all`] is the table: for each [`Op`] its byte, its name and its fields, as [`FieldKind`]s with names of
//! their own. Whatever else speaks of asks, as a command line that prints its usage, can go by it.
//!
//! # How it is built
//!
//! `ask` and `reply` are the messages, `greeting` what HELLO says, and `fault` why a body has no reading.
//!
//! The format stands once, as a table of first bytes and kinds of fields, in `specs/Table.antt`; the code's table of asks, in
//! `shape`, is proved to be that one. Asks are read and written field by field, and each is proved to go along its line of the
//! table. `ask_reading` reads a view of the body, `ask_writing` writes a view of the ask. `field` reads one field from the front
//! of the bytes, `spelling` writes a message. `reply_reading` and `reply_writing` have the four replies. What the table says of
//! every body stands as laws in `laws`. `equality` compares messages, and `copying` leads from a view to an ask and back. `borrowed`, `ask_step` and
//! `ask_copy` have an ask that stands elsewhere.
#![tactic(auto)]

mod ask;
mod ask_copy;
mod ask_reading;
mod ask_step;
mod ask_writing;
mod borrowed;
mod copying;
mod equality;
mod fault;
mod field;
mod greeting;
mod laws;
mod reply;
mod reply_reading;
mod reply_writing;
mod shape;
mod spelling;

pub use ask::{Ask, AskOf, AskView};
pub use ask_copy::AskCopy;
pub use ask_step::AskStep;
pub use borrowed::AskRef;
pub use fault::{Fault, ReadError};
pub use greeting::Greeting;
pub use laws::{asks_have_one_reading, replies_have_one_reading};
pub use reply::{Reply, ReplyBytes};
pub use rk_names::KeyError;
pub use shape::{AskShape, FieldKind, Op};
