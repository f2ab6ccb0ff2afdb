//! The daemon that is looked after.
ghost use Rattle.std.specs.Prelude.{◌≡◌, ◌-◌, None};

use crate::figures::{Clients, Figures, InRun, Running};
use crate::handlers::Started;
use crate::post::Post;
use crate::reporter::Reporter;
use crate::workers::Shared;
use log::warn;
use rk_hall::{Counts, HallNo, Names};
use std::io::Eprint;
use std::sync::Wait;
use std::time::Clock;

/// What all workers of a daemon share, and its log.
#[derive(Drop)]
pub struct SystemPost<'a, N: Names, R> {
    /// What may wait, and has the clock.
    rt: &'a R,
    /// Where lines are told.
    log: Reporter<'a, R>,
    /// What is looked at.
    shared: &'a Shared<N>,
}

impl<'a, N: Names, R: Wait + Clock + Eprint> SystemPost<'a, N, R> {
    /// The daemon whose workers share this, and its log. It takes no memory.
    pub fn new(rt: &'a R, log: Reporter<'a, R>, shared: &'a Shared<N>) -> SystemPost<'a, N, R> {
        SystemPost { rt, log, shared }
    }
}

impl<'a, N: Names, R: Wait + Clock + Eprint> Post for SystemPost<'a, N, R> {
    ghost story = { λ post. None };

    fn seconds(&mut self) -> u64 {
        self.log.seconds()
    }

    fn tell_left_out(&mut self, minute: u64) {
        self.log.tell_left_out(minute);
    }

    fn tell_slow(&mut self, now: u64, seconds: u64) {
        for _ in self.rt.forever() {
            let Some(started) = self.shared.handlers.slow(self.rt, now, seconds) else {
                return;
            };
            warn!(self.log; "{}", running(started, now));
        }
    }

    fn clients(&mut self) -> Clients {
        Clients {
            open: self.shared.connections.open(),
            served: self.shared.connections.served(),
        }
    }

    fn handlers(&mut self, now: u64) -> InRun {
        self.shared.handlers.in_run(self.rt, now)
    }

    fn counts(&mut self, hall: HallNo) -> Counts {
        self.shared.halls.counts(self.rt, hall)
    }

    fn volumes(&mut self) -> u64 {
        self.shared.held.volumes()
    }

    fn tell(&mut self, figures: &Figures) {
        self.log.tell(figures);
    }
}

/// A handler that was started, now.
fn running(started: Started, now: u64) -> Running
    ensures { result ≡ record { key = started.key; purpose = started.purpose; seconds = now - started.since } }
{
    let seconds = started.passed(now);
    let Started { key, purpose, .. } = started;
    Running {
        key: key.get(),
        purpose,
        seconds,
    }
}
