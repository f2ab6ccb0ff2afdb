//! A program that is started in a session ring of its own.
//!
//! # Purpose
//!
//! [`run`] is what `reqkeyctl run` does: it connects to the daemon, says HELLO with a new session ring, starts a program to which keyutils' calls are
//! the daemon's, by a library that is preloaded, and keeps its connection until the program has ended. So the ring is there as long, for the program and
//! for all that it starts. With `--trap` it starts `reqkey-trap` with the program instead, and says nothing to the daemon itself.
//!
//! # What it promises
//!
//! Whatever its [`Host`] answers, what is done of it, if the host tells that, is a run as `specs/Runs.antt` says. Without `--trap`, HELLO is asked first. The
//! program is started with its own words, and with exactly the variables of `specs/Starts.antt` besides those that are there. The connection is closed after
//! the wait for its end, and not before. What is answered is its status, as a shell tells it, or why there is none. What a host does out there no contract
//! can say: [`System`] is the one that calls the system, and tells nothing. The one of rk_edge_tests tells all.
//!
//! # How it is built
//!
//! `wanted` reads the words, `host` has the trait of what a run does outside of itself, `starting` makes the command, `paths` what it gets of the socket,
//! `status` tells how a program has ended, and `running` puts it together. `fault` says why there is no status. `system` is the host of a real run.
#![tactic(auto)]

mod fault;
mod host;
mod paths;
mod running;
mod starting;
mod status;
mod system;
mod wanted;

pub use fault::RunFault;
pub use host::{Here, Host, StartFault};
pub use running::run;
pub use system::{System, told};
pub use wanted::Wanted;
