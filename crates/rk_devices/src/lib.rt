//! The devices by which handler programs are run, as traits, and what is said to a handler's program with no hall.
//!
//! # Purpose
//!
//! A [`Launcher`] starts commands. What it starts is a [`Child`], with an input that is written, an output that is read, and an end that is waited for.
//! The daemon has real programs behind them, and tests have what they like. A [`Clock`] tells the moment, and a [`Gate`] learns what happens, so that a
//! test can hold a thread there.
//!
//! # What it promises
//!
//! The traits say what each call does to counts that contracts see: failures (a count that stands at the greatest u64 stays there, and counts as risen),
//! reads, whether a read told the end of a child's output, children that are out, and how the child that came back last has ended. So a contract above can
//! bind each fault to a failure of a device, and say that every child is handed back, and is waited for only at the end of its output. A child may tell what
//! passes with it, both ways, as a test's does; then a contract above says what it was sent. [`pipe_through`] writes a callout to a piped handler and keeps
//! its output, at most 32,767 bytes; what is past that is read and dropped, and gives no payload.
//! [`read_out`] reads and drops. Both end after 1,048,576 reads, whatever the child does.
//!
//! # How it is built
//!
//! `device` has the launcher and its children, and `around` clock and gate. `driven` is how a launch was brought to its end, and `report` what a gate learns
//! of that. `output` keeps the output of a piped handler, in room that was made before its start, and `reading` reads.
#![tactic(auto)]

mod around;
mod device;
mod driven;
mod output;
mod reading;
mod report;

pub use around::{Clock, Gate};
pub use device::{Child, DeviceFault, Launcher, StartFault};
pub use driven::Driven;
pub use output::{Output, OutputFault};
pub use reading::{ReadFault, pipe_through, read_out};
pub use report::{Course, Report};
