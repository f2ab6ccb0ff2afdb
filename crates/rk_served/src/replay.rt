//! The replay: a happening, and then moves until no session can move.
ghost use Rattle.std.specs.Prelude.{◌≡◌, ◌↔◌, ◌≤◌, true, false, List, Err, IfOk, IfSome};
ghost use Rattle.rk_machine.specs.Steps.{Past};
ghost use Rattle.rk_served.specs.Left.{nothing};
ghost use Rattle.rk_served.specs.OwnStep.{is_misplaced};
ghost use Rattle.rk_served.specs.Served.{ServesNext, ServedIsRun};
ghost use Rattle.rk_served.specs.Standing.{are_in_order};
ghost use Rattle.rk_served.specs.Order.{ServesInOrder};
ghost use Rattle.rk_served.specs.View.{told};

use crate::fault::TakeFault;
use crate::happening::Happening;
use crate::occasion::Occasion;
use crate::output::Outputs;
use crate::queue::Queue;
use crate::server::Server;
use rk_conf::Conf;
use rk_core::{Book, Limits};
use rk_names::Moment;
use std::alloc::{AllocError, Global};
use std::marker::Model;

/// A machine that is driven by happenings.
#[derive(Drop)]
pub struct Replay {
    /// The configuration, which chooses the commands.
    conf: Conf,
    /// The machine and its peers.
    server: Server,
    /// The sessions that may move or wait.
    queue: Queue,
    /// Whether it was once out of memory.
    broken: bool,
}

impl Model for Replay {
    ghost use Rattle.std.specs.Prelude.{◌≡◌, false};
    ghost use Rattle.rk_served.specs.WhoIsThere.{HasItsPeers};
    ghost use Rattle.rk_served.specs.Calls.{left_of};
    ghost use Rattle.rk_served.specs.Queued.{IsStill};
    ghost use Rattle.rk_served.specs.View.{View, view_code};

    ghost Value = { View };

    ghost coded = { view_code };

    ghost view = { λ r. record { conf = r.conf; left = left_of r.server; broken = r.broken } };

    ghost invariant = { λ r. r.broken ≡ false → HasItsPeers (left_of r.server) × IsStill r.queue (left_of r.server) };
}

impl Replay {
    /// A replay that nothing has happened to. An `Err` is out of memory.
    pub fn new(alloc: Global, conf: Conf, limits: Limits) -> Result<Replay, AllocError>
        requires { 1 ≤ limits.stride }
        ensures left { IfOk result (λ r. r.left ≡ nothing (record { negative = limits.negative; first = limits.first; stride = limits.stride })) }
        ensures conf { IfOk result (λ r. r.conf ≡ conf) }
        ensures fine { IfOk result (λ r. r.broken ≡ false) }
    {
        Ok(Replay {
            conf,
            server: Server {
                book: Book::new(alloc, limits)?,
                peers: Vec::new(alloc),
            },
            queue: Queue::new(alloc),
            broken: false,
        })
    }

    /// Takes a happening in, at its moment, and returns what is output for it.
    ///
    /// Its steps go on with the run of the machine that led to the replay, and obey the laws of every run. Of the sessions that can
    /// move, the first one moves: clients by rising number, and then handlers by rising key.
    ///
    /// A misplaced happening is `Unknown`, and changes nothing. Once out of memory it answers `NoMemory` for good, also to a
    /// misplaced happening.
    pub fn take(
        &mut self,
        alloc: Global,
        now: Moment,
        happening: &Happening,
    ) -> Result<Outputs, TakeFault>
        // Whatever served list left the replay, that list with this happening and these outputs is served, and leaves it so. The steps of
        // that list and of this happening are a run of the machine that obeys the laws of every run.
        ensures served { IfSome (told result) (λ outputs. ServesNext self.old.conf self.old.left
            (record { now = now; happening = happening.now; outputs = outputs }) self.new.left) }
        // The moves of sessions are made in the order of work: each by the first that can, clients by rising number, then handlers by rising key.
        ensures order { IfSome (told result) (λ outputs. (steps : List Past)
            × ServesInOrder self.old.conf self.old.left now happening.now outputs steps self.new.left) }
        // whatever the order of arrival, the peers stand in that order
        ensures peers { are_in_order self.new.left.peers ≡ true }
        ensures conf { self.new.conf ≡ self.old.conf }

        ensures unknown { self.old.broken ≡ false → (result ≡ Err TakeFault.Unknown) ↔ (is_misplaced self.old.left.world happening.now ≡ true) }
        ensures unchanged { result ≡ Err TakeFault.Unknown → self.new ≡ self.old }

        // once out of memory it answers that for good
        ensures memory { (result ≡ Err TakeFault.NoMemory) ↔ (self.new.broken ≡ true) }
        ensures for_good { self.old.broken ≡ true → result ≡ Err TakeFault.NoMemory }
    {
        if self.broken {
            return Err(TakeFault::NoMemory);
        }
        if self.server.is_misplaced(happening) {
            return Err(TakeFault::Unknown);
        }
        let occasion = Occasion {
            alloc,
            conf: &self.conf,
            moment: now,
        };
        match self.server.act(&occasion, happening, &mut self.queue) {
            Ok(out) => Ok(out),
            Err(_) => {
                self.broken = true;
                Err(TakeFault::NoMemory)
            }
        }
    }
}

/// The steps of a served list are a run of the machine, to the world that the list leaves, and obey the laws of every run.
pub fn served_is_run()
    ensures { ServedIsRun }
{}
