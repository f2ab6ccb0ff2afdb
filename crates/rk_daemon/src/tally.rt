//! How many lines of a kind are written.
ghost use Rattle.std.specs.Prelude.{◌≡◌, ◌≤◌};
ghost use Rattle.rk_daemon.specs.Tally.{admits, counted, emptied, left_out};

use crate::by_kind::ByKind;
use std::sync::{Mutex, Wait};

/// How many lines of one kind are written in a minute.
const MOST: u32 = 10;

/// The lines of one kind: how many were written in the newest minute of the clock, and how many were left out that nobody was told of.
#[derive(Clone, Copy, Debug, PartialEq, Eq)]
pub struct Count {
    /// The newest minute.
    minute: u64,
    /// How many lines were written in it.
    written: u32,
    /// How many were left out in it, at most the greatest u32.
    left_out: u32,
    /// How many were left out in the minutes before it, at most the greatest u32.
    earlier: u32,
}

impl Count {
    /// No line yet.
    fn new() -> Count
        ensures { result ≡ record { minute = 0; written = 0; left_out = 0; earlier = 0 } }
    {
        Count {
            minute: 0,
            written: 0,
            left_out: 0,
            earlier: 0,
        }
    }

    /// Counts one more line in this minute, or in the newest one if that is later; whether it is to be written.
    fn admit(&mut self, minute: u64) -> bool
        ensures counts { self.new ≡ counted minute self.old }
        ensures admits { result ≡ admits minute self.old }
        ensures bound { self.old.written ≤ 10 → self.new.written ≤ 10 }
    {
        if minute > self.minute {
            self.minute = minute;
            self.written = 0;
            self.earlier = self.earlier.saturating_add(self.left_out);
            self.left_out = 0;
        }
        if self.written < MOST {
            self.written += 1;
            return true;
        }
        self.left_out = self.left_out.saturating_add(1);
        false
    }

    /// How many lines were left out before this minute. They are counted from 0 again.
    fn take_left_out(&mut self, minute: u64) -> u32
        ensures counts { self.new ≡ emptied minute self.old }
        ensures told { result ≡ left_out minute self.old }
    {
        let mut count = self.earlier;
        self.earlier = 0;
        if self.minute < minute {
            count = count.saturating_add(self.left_out);
            self.left_out = 0;
        }
        count
    }
}

/// Bounds the lines of one kind: so many in each minute of the clock, and then a count of those that were left out.
#[derive(Drop)]
pub struct Tally {
    /// How many there were.
    count: Mutex<Count>,
}

impl Tally {
    /// No line yet.
    fn new() -> Tally {
        Tally {
            count: Mutex::new(Count::new()),
        }
    }

    /// Counts one more line in this minute; whether it is to be written.
    pub fn admits<R: Wait>(&self, rt: &R, minute: u64) -> bool {
        self.count.lock(rt).admit(minute)
    }

    /// How many lines were left out before this minute. They are counted from 0 again.
    pub fn take_left_out<R: Wait>(&self, rt: &R, minute: u64) -> u32 {
        self.count.lock(rt).take_left_out(minute)
    }
}

/// A tally for each kind, with no line yet.
pub fn tallies() -> ByKind<Tally> {
    ByKind {
        session: Tally::new(),
        handler: Tally::new(),
        slow: Tally::new(),
        busy: Tally::new(),
        accept: Tally::new(),
        other: Tally::new(),
    }
}
