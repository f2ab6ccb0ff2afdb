//! The handlers that run.
ghost use Rattle.std.specs.Prelude.{◌≡◌, ◌<◌, ◌==◌, ◌++◌, ◌∷◌, [], not, IfSome, OnErr, OnOk, filter, length, position};
ghost use Rattle.rk_daemon.specs.Handlers.{is_slow, oldest_of, IsTaken};

use crate::figures::{InRun, Oldest};
use rk_names::Serial;
use std::alloc::{AllocError, Global};
use std::mem::replace;
use std::sync::{Mutex, Wait};

/// A handler that runs.
#[derive(Debug, Drop)]
pub struct Started {
    /// The key that it makes.
    pub key: Serial,
    /// When it was started, in seconds of the monotonic clock.
    pub since: u64,
    /// What it was started for, as the log says it, until it is logged that it runs for long; then `None`.
    pub purpose: Option<String>,
}

impl Started {
    ghost use Rattle.std.specs.Prelude.{◌≡◌, ◌-◌};
    ghost use Rattle.rk_daemon.specs.Handlers.{is_slow};

    /// For how many seconds it has run.
    pub fn passed(&self, now: u64) -> u64
        ensures { result ≡ now - self.now.since }
    {
        now.saturating_sub(self.since)
    }

    /// Whether it has run for so many seconds, and that was not told.
    fn is_slow(&self, now: u64, seconds: u64) -> bool
        ensures { result ≡ is_slow now seconds self.now }
    {
        self.purpose.is_some() && self.passed(now) >= seconds
    }
}

/// The place of the first of these that is slow.
fn first_slow(running: &[Started], now: u64, seconds: u64) -> Option<usize>
    ensures first { result ≡ position (is_slow now seconds) running.now }
    ensures within { IfSome result (λ at. at < length running.now) }
{
    running
        .iter()
        .position(|started| started.is_slow(now, seconds))
}

/// The first of these that has run for so many seconds, and for which that was not told; now it is.
fn take_slow(running: &mut [Started], now: u64, seconds: u64) -> Option<Started>
    ensures { IsTaken (position (is_slow now seconds) running.old) running.old result running.new }
{
    match first_slow(running, now, seconds) {
        Some(at) => {
            let told = Started {
                key: running[at].key,
                since: running[at].since,
                purpose: None,
            };
            Some(replace(&mut running[at], told))
        }
        None => None,
    }
}

/// The first of these.
fn oldest_of(running: &[Started], now: u64) -> Option<Oldest>
    ensures { result ≡ oldest_of now running.now }
{
    let started = running.first()?;
    Some(Oldest {
        key: started.key.get(),
        seconds: started.passed(now),
    })
}

/// One more runs, the last of them. An `Err` is out of memory, and leaves them as they were.
fn add(running: &mut Vec<Started>, started: Started) -> Result<(), AllocError>
    ensures added { OnOk result (running.new.items ≡ running.old.items ++ started ∷ []) }
    ensures left { OnErr result (running.new.items ≡ running.old.items) }
{
    running.push(started)?;
    Ok(())
}

/// The handler of this key runs no more. The others stay, in their order.
fn leave_out(running: &mut Vec<Started>, key: Serial)
    ensures { running.new.items ≡ filter (λ s. not (s.key == key)) running.old.items }
{
    running.retain(|started| started.key != key);
}

/// The handlers that run, in the order in which they were started.
#[derive(Drop)]
pub struct Handlers {
    /// Each of them.
    running: Mutex<Vec<Started>>,
}

impl Handlers {
    /// None runs.
    pub fn new(alloc: Global) -> Handlers {
        Handlers {
            running: Mutex::new(Vec::new(alloc)),
        }
    }

    /// The handler of this key was started now, for this purpose. Out of memory, it is not looked after.
    pub fn start<R: Wait>(&self, rt: &R, key: Serial, purpose: String, now: u64) {
        let started = Started {
            key,
            since: now,
            purpose: Some(purpose),
        };
        let _ = add(&mut self.running.lock(rt), started);
    }

    /// The handler of this key has ended, or was not started.
    pub fn end<R: Wait>(&self, rt: &R, key: Serial) {
        leave_out(&mut self.running.lock(rt), key);
    }

    /// The first one that has run for so many seconds, and for which this was not asked before.
    pub fn slow<R: Wait>(&self, rt: &R, now: u64, seconds: u64) -> Option<Started> {
        take_slow(&mut self.running.lock(rt), now, seconds)
    }

    /// How many run, and the one that was started first.
    pub fn in_run<R: Wait>(&self, rt: &R, now: u64) -> InRun {
        let running = self.running.lock(rt);
        InRun {
            count: running.len(),
            oldest: oldest_of(&running, now),
        }
    }
}
