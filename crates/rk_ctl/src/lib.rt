//! What `reqkeyctl` does, over words, streams, a host and a daemon that are passed in.
//!
//! # Purpose
//!
//! [`run_words`] asks the daemon for one thing, as a shell says it. `reqkeyctl --socket PATH OP ARGS` connects, says who it is, asks, and prints the reply.
//! Without `--socket` it speaks as a handler that the daemon has started: it writes the ask to its standard output, reads the reply from its standard input,
//! and not a byte more, and tells it on standard error. So a handler can be a shell script of a few such lines (reqkeyctl(1)).
//!
//! `reqkeyctl run -- PROGRAM WORDS` runs a program in a session ring of its own, to which keyutils' calls are the daemon's (docs/PROGRAMS.md).
//!
//! `reqkeyctl list` and `reqkeyctl sweep` look for the keys of a user: each serial that there may be is described.
//!
//! # What it promises
//!
//! Whatever the [`Daemon`] answers, it is asked for nothing but what the words say, and that once, after the HELLO of their options (`HasSpoken` of
//! `specs/Outcome.antt`). With status 0 the words were done: the answer is no refusal and was printed, help was, or a program was run (`HasDone`). With
//! status 2 nothing was read, written to standard output, or said. A program that is wanted is run as [`rk_run::run`] promises, and for other words the host is
//! asked nothing.
//!
//! What goes over a connection that was made stands at [`converse`] and [`find_keys`]. That one leads to the socket of this path, and that the streams are
//! those of a process, no contract can say.
//!
//! # How it is built
//!
//! `call` reads the words, `source` a file whose bytes stand for an argument, `asking` makes the ask of both; the library `rk_client` has what is
//! said and heard. `daemon` is who is asked at a socket, `address` where that is, and `conversation` one ask over a connection to it. `search` names the commands that look for keys,
//! `survey` reads their words, `searching` is what they say over a connection, and `looking` prints what is found. `running` runs a program, by the library
//! `rk_run`. `around` says what is around a call, and `streams` what it reads and writes. `telling` prints replies, and `trouble` says in words what stood in
//! the way. `help` shows the manual to words that ask for it, and says what is wrong with words that can't be read, by `manual` and `misuse`. `run` puts it
//! together.
#![tactic(auto)]

mod address;
mod around;
mod asking;
mod call;
mod conversation;
mod daemon;
mod help;
mod looking;
mod manual;
mod misuse;
mod run;
mod running;
mod search;
mod searching;
mod source;
mod streams;
mod survey;
mod telling;
mod trouble;

pub use address::Address;
pub use around::{Around, Invocation};
pub use conversation::converse;
pub use daemon::Daemon;
pub use run::run_words;
pub use search::Search;
pub use searching::{Found, find_keys};
pub use streams::Streams;
pub use telling::{no_memory, not_text};
