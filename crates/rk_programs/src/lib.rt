//! Handler programs, started for real.
//!
//! # Purpose
//!
//! [`Programs`] is the launcher of the daemon: it starts the program of a command with a pipe to its standard input and one from its standard output
//! (`posix_spawn(3)`), and takes it back. What it starts is a [`Program`].
//!
//! # What it promises
//!
//! A command is started with its own path and words, by [`made`]. The environment, the folder and standard error are the daemon's; a handler has no
//! other descriptor of it. If the launcher has a library, a plain handler also gets it preloaded (`LD_PRELOAD`), and learns that the daemon is
//! at standard input and output (`REQKEYD_STREAMS`); so keyutils' own programs are handlers as they are. Each failure is counted, as the traits of
//! `rk_devices` say, so that whoever drives a handler can bind each fault to a failure here.
//! That a program is really started, and what a pipe gives or takes, no contract can say.
//!
//! A program that came back before it was waited for, since it could not be read, would stay in the list of processes when it ends. It is kept, its pipes
//! closed, and asked at each later start whether it has ended.
//!
//! # How it is built
//!
//! `making` makes what is started of a command, `program` is a child, `programs` the launcher, `unwaited` has those that came back too early. `counting`
//! counts.
#![tactic(auto)]

mod counting;
mod making;
mod program;
mod programs;
mod unwaited;

pub use making::made;
pub use program::Program;
pub use programs::Programs;
