//! Accepting connections.
ghost use Rattle.std.specs.Prelude.{◌≡◌};
ghost use Rattle.rk_daemon.specs.Accepting.{Accepts, LetsIn, Watches, goes_on};
ghost use Rattle.rk_daemon.specs.Story.{Does};

use crate::door::Door;
use log::{Log, warn};
use std::sync::Wait;

/// When no more connections are accepted.
#[derive(Clone, Copy, Debug, PartialEq, Eq)]
pub struct Until {
    /// After so many connections; 0 for never.
    pub clients: u32,
    /// Once standard input has ended.
    pub eof: bool,
}

/// Accepts connections and hands them out, numbered from 1, until no more are to be accepted. It waits while all workers are busy and the channel is full.
pub fn accept<R: Wait, L: Log, D: Door>(rt: &R, log: &L, door: &mut D, until: Until)
    ensures { Does (Accepts until 0) (D.story door.old) (D.story door.new) }
{
    let mut last = 0;
    for _ in rt.forever() {
        match let_in(log, door, until, last) {
            Some(number) => last = number,
            None => return,
        }
    }
}

/// Accepts a connection after so many, and hands it out. Returns how many have come then, if more are to be accepted.
fn let_in<L: Log, D: Door>(log: &L, door: &mut D, until: Until, last: u32) -> Option<u32>
    ensures { Does (LetsIn until last result) (D.story door.old) (D.story door.new) }
{
    if is_over(door, until.eof) {
        return None;
    }
    match door.accept() {
        Ok(connection) => {
            let number = last.checked_add(1)?;
            let is_taken = door.hand_out(number, connection);
            goes_on(until, number, is_taken)
        }
        Err(error) => {
            warn!(log; "accept: {error}");
            door.pause();
            Some(last)
        }
    }
}

/// Whether standard input has ended, if that is to be the end.
fn is_over<D: Door>(door: &mut D, eof: bool) -> bool
    ensures { Does (Watches eof result) (D.story door.old) (D.story door.new) }
{
    eof && door.is_over()
}

/// How many connections have come, if workers are left and the one with this number was not the last.
fn goes_on(until: Until, number: u32, is_taken: bool) -> Option<u32>
    ensures { result ≡ goes_on until number is_taken }
{
    if is_taken && number != until.clients {
        Some(number)
    } else {
        None
    }
}
