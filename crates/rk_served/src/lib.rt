//! The replay: the machine of `rk_core` with a stream of frames for each client and each plain handler.
//!
//! # Purpose
//!
//! Nothing is started, no clock is read and no socket is there: what happens is passed to a [`Replay`], and what it would do is
//! output. The crate is named after what the contracts speak of: a *served* list is a list of happenings with the outputs that a
//! replay gives them. `rk_replay` is the script of a replay, and passes its lines here.
//!
//! # What is promised
//!
//! [`Replay::take`] takes one [`Happening`] at its moment. Whatever list of happenings was served before, that list with this one
//! and with these outputs is served, too (`specs/Served.antt`). It makes the own step of the happening, and then moves of
//! sessions until none can move. A session that waits moves no more until it can collect. Of those that can, the first one moves:
//! clients by rising number, and then handlers by rising key (`specs/Order.antt`). So the peers stand in that order, whatever the
//! order of arrival. The steps of that list and of this happening are a run of the machine that obeys the laws of every run. This
//! stands on the contract of the call itself, and for any served list on that of [`served_is_run`]. A happening whose client or
//! handler is not at that point is refused, and changes nothing. Once out of memory, a replay answers that for good.
//!
//! # How it is built
//!
//! `happening` has what happens to a replay, `output` what it outputs, over `bytes` that a contract sees, and `fault` what is refused.
//!
//! `stream` cuts frames and makes their asks, each where it lies, so that none is copied. A peer is a client, or a construction with its handler; `peer` and `peers` say who is there.
//! `command` makes the words of a command, `replies` makes frames of answers. `occasion` has what all steps of a turn are made with.
//! `server` is the machine with the peers, and moves sessions; `acting` takes the own step of a happening, and `replay` is what the crates above see.
//! `queue` knows who may move, and who waits for which key: only those that a step can have freed are asked again, and not all who are there. One
//! that has moved is not asked either where it waits or its stream is used up, and bytes free nobody but the session to which they come. Each
//! move makes the rest lighter: fewer unused bytes, a stream that is shut, or a wait that has ended; so the moves come to an end
//! (`proofs/Weight.antt`).
#![tactic(auto)]

mod acting;
mod bytes;
mod command;
mod fault;
mod happening;
mod occasion;
mod output;
mod peer;
mod peers;
mod queue;
mod replay;
mod replies;
mod server;
mod stream;

pub use crate::bytes::Bytes;
pub use fault::TakeFault;
pub use happening::{Happening, StartResult};
pub use output::{Output, Outputs};
pub use replay::{Replay, served_is_run};
