//! What a client or a handler of a request_key daemon does: words into an ask, the ask to the daemon, its reply into text.
//!
//! # Purpose
//!
//! A program that stands between a person, or a shell script, and the daemon needs three things. [`ask_of`] makes an [`Ask`](rk_message::Ask)
//! of an op and its arguments, as `read` and `3`. [`exchange`] writes one ask as one frame and reads exactly the frame of its reply, over any
//! reader and writer; [`exchange_greeted`] sends HELLO before it, as a client that has just connected does. [`printed`] is the line that tells
//! a reply.
//!
//! # What it promises
//!
//! Arguments are taken where the format allows them and refused otherwise; out of memory comes only for arguments that are taken. What is
//! written is the frame of the ask and nothing else. A reply is what the bytes at the front of the reader spell, and they alone are read, so
//! that another program may read on after them from the same pipe. Bytes that begin with no reply are refused as such.
//!
//! # How it is built
//!
//! `argument` reads one argument: a number, a key, a ring, a setting, a name. `asking` puts those of an op together, `op` finds the op by its word.
//! The table of asks in `rk_message` has which arguments an op takes; their order on a command line is that of its fields, but for the callout, which
//! comes last, since it may be left out. `peer` has the frames, `answer` the text. What an argument says stands in `specs/Arguments.antt`, what was
//! written and read in `specs/Peer.antt`.
#![tactic(auto)]

mod answer;
mod argument;
mod asking;
mod fault;
mod op;
mod peer;

pub use answer::printed;
pub use asking::ask_of;
pub use fault::{ArgumentFault, PeerFault};
pub use op::op_named;
pub use peer::{exchange, exchange_greeted, is_refusal};
