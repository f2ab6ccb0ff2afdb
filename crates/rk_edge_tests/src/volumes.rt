//! Volumes of a hall that tell what is done with them, and how one is tied to the one before it.
ghost use Rattle.std.specs.Prelude.{◌≡◌, [], ◌∷◌, ◌++◌, map, Some};
ghost use Rattle.rk_daemon.specs.Binding.{Binds};
ghost use Rattle.rk_edge_tests.specs.Done.{of_volume};

use crate::done::OfVolume;
use rk_daemon::{Bindery, bind};
use rk_record::HallNo;
use rk_volumes::{Head, RunNumber, Seal, Sum};
use std::alloc::Global;
use std::io;
use std::io::ErrorKind;
use std::process::Abort;

/// The sum of the volume before, and that of a volume that is written.
const BEFORE: Sum = [3; 32];

const OWN: Sum = [4; 32];

/// A run, and the head of a volume.
const RUN: RunNumber = [7; 16];

const HEAD: Head = Head {
    hall: HallNo::Two,
    negative: 60,
    index: 12,
    before: 5,
};

/// Volumes that tell what is done with them; whether one can be written is given. Out of memory for what it keeps ends the process.
#[derive(Drop)]
struct Telling<'a, R> {
    rt: &'a R,
    writes: bool,
    /// What was done, first things first.
    done: Vec<OfVolume>,
}

impl<'a, R: Abort> Telling<'a, R> {
    /// Keeps what was done.
    fn keep(&mut self, done: OfVolume)
        ensures { self.new.done.items ≡ self.old.done.items ++ done ∷ [] }
    {
        self.done.push(done).expect(self.rt, "memory");
    }
}

impl<'a, R: Abort> Bindery for Telling<'a, R> {
    ghost story = { λ volumes. Some (map of_volume volumes.done.items) };

    fn before(&mut self, index: u64) -> Sum {
        self.keep(OfVolume::Awaited(index, BEFORE));
        BEFORE
    }

    fn write(&mut self, seal: &Seal, head: &Head) -> io::Result<Sum> {
        if self.writes {
            self.keep(OfVolume::Written(*seal, *head, Some(OWN)));
            return Ok(OWN);
        }
        self.keep(OfVolume::Written(*seal, *head, None));
        Err(io::Error::from(ErrorKind::StorageFull))
    }

    fn settle(&mut self, index: u64, sum: Sum) {
        self.keep(OfVolume::Settled(index, sum));
    }
}

/// Writes a volume with which nothing was done: all that is done ties it to the one before it.
fn tied<R: Abort>(rt: &R, alloc: Global, writes: bool, closing: bool) -> Vec<OfVolume>
    ensures { Binds RUN closing HEAD (map of_volume result.items) }
{
    let mut volumes = Telling {
        rt,
        writes,
        done: Vec::new(alloc),
    };
    let log: Option<HostRuntime> = None;
    bind(&log, &mut volumes, RUN, closing, &HEAD);
    volumes.done
}

#[test]
fn a_volume_is_tied(rt: HostRuntime) {
    let seal = Seal {
        closing: true,
        run: RUN,
        previous: BEFORE,
    };
    let wanted = [
        OfVolume::Awaited(12, BEFORE),
        OfVolume::Written(seal, HEAD, Some(OWN)),
        OfVolume::Settled(12, OWN),
    ];
    let done = tied(&rt, rt.alloc(), true, true);
    assert_eq!(rt; done.as_slice(), &wanted[..]);
}

#[test]
fn the_next_is_tied_to_the_one_before_what_can_not_be_written(rt: HostRuntime) {
    let seal = Seal {
        closing: false,
        run: RUN,
        previous: BEFORE,
    };
    let wanted = [
        OfVolume::Awaited(12, BEFORE),
        OfVolume::Written(seal, HEAD, None),
        OfVolume::Settled(12, BEFORE),
    ];
    let done = tied(&rt, rt.alloc(), false, false);
    assert_eq!(rt; done.as_slice(), &wanted[..]);
}
