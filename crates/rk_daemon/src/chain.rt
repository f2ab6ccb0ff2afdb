//! The order in which the volumes of a record are written.
ghost use Rattle.std.specs.Prelude.{◌≤◌};

use crate::by_hall::ByHall;
use rk_volumes::{RunNumber, Sum};
use std::sync::{Condvar, Mutex, Wait};

/// The last volume of a hall that is done with.
#[derive(Clone, Copy, Drop)]
struct Last {
    /// Its index, and 0 if there is none.
    index: u64,
    /// What the next one has to say of it.
    sum: Sum,
}

/// The volumes of one hall. Each is written once the one before it is done with, since it says which sum that has; several threads hand them out.
#[derive(Drop)]
pub struct Chain {
    /// The last volume that is done with.
    last: Mutex<Last>,
    /// Told each time a volume is done with.
    moved: Condvar,
}

impl Chain {
    fn new() -> Chain {
        Chain {
            last: Mutex::new(Last {
                index: 0,
                sum: [0; 32],
            }),
            moved: Condvar::new(),
        }
    }

    /// What the volume with this index has to say of the one before it. It waits until that one is done with.
    pub fn before<R: Wait>(&self, rt: &R, index: u64) -> Sum {
        self.awaited(rt, index.saturating_sub(1)).sum
    }

    /// The last volume that is done with, once the one with this index is.
    fn awaited<R: Wait>(&self, rt: &R, index: u64) -> Last
        ensures { index ≤ result.index }
    {
        let last = self
            .moved
            .wait_while(rt, self.last.lock(rt), |last| last.index < index);
        *last
    }

    /// The volume with this index is done with, and the next one has to say this of it.
    pub fn done<R: Wait>(&self, rt: &R, index: u64, sum: Sum) {
        let mut last = self.last.lock(rt);
        *last = Last { index, sum };
        drop(last);
        self.moved.notify_all();
    }
}

/// A run whose record is written.
#[derive(Drop)]
pub struct Run {
    /// The folder of the record.
    pub folder: String,
    /// Its number, which was drawn at the start.
    pub number: RunNumber,
    /// The volumes of each hall.
    pub chains: ByHall<Chain>,
}

impl Run {
    /// A run with no volume yet.
    pub fn new(folder: String, number: RunNumber) -> Run {
        Run {
            folder,
            number,
            chains: ByHall {
                zero: Chain::new(),
                one: Chain::new(),
                two: Chain::new(),
                three: Chain::new(),
            },
        }
    }
}
