//! What connections find.
ghost use Rattle.std.specs.Prelude.{◌≡◌, ◌&&◌, nat_le, not};

use crate::connections::Connections;
use log::{Log, warn};

/// What connections find: so many workers, who may all be busy.
#[derive(Drop)]
pub struct Entrance<'a> {
    /// Counts the connections.
    connections: &'a Connections,
    /// How many workers there are.
    workers: u32,
    /// Whether the last connection has found all of them busy.
    are_busy: bool,
}

impl<'a> Entrance<'a> {
    ghost use Rattle.std.specs.Prelude.{◌≡◌, ◌&&◌, nat_le, not};

    /// So many workers, of which none is busy, for these connections.
    pub fn new(connections: &'a Connections, workers: u32) -> Entrance<'a> {
        Entrance {
            connections,
            workers,
            are_busy: false,
        }
    }

    /// Counts one more connection, and warns if it is the first of several that find all workers busy. None of these workers may come free by itself: who
    /// has it may wait for what a program of its own asks over this connection. Only here a worker gets more to do, so that one who has come free meanwhile
    /// is found so by the next connection.
    pub fn come<R: Log>(&mut self, log: &R) {
        let others = self.connections.come();
        if self.finds(others) {
            let workers = self.workers;
            warn!(log; "all {workers} workers are busy, connections wait");
        }
    }

    /// A connection finds so many others; whether it is the first of several that find all workers busy.
    fn finds(&mut self, others: u32) -> bool
        ensures busy { self.new.are_busy ≡ nat_le self.old.workers others }
        ensures workers { self.new.workers ≡ self.old.workers }
        ensures first { result ≡ (nat_le self.old.workers others && not self.old.are_busy) }
    {
        let were_busy = self.are_busy;
        self.are_busy = others >= self.workers;
        self.are_busy && !were_busy
    }
}
