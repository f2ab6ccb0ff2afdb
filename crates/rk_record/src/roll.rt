//! Volumes of a hall's record: one is handed out, and the next begins.
ghost use Rattle.std.specs.Prelude.{◌≡◌, ◌↔◌, ◌≤◌, ◌^◌, IfOk, OnErr, Err};
ghost use Rattle.rk_record.specs.Record.{IsRecord, places_after};
ghost use Rattle.rk_record.specs.Volumes.{volume_of, rolled, CannotRoll};

use crate::fault::HallFault;
use crate::hall::Hall;
use crate::recorded::Recorded;
use crate::volume::Volume;
use std::mem;
use std::snapshot::Snapshot;

/// The greatest number of a step.
const MAX_NUMBER: u64 = 1 << 61;

impl Hall {
    /// Hands out the volume that was being recorded, and begins the next. That one has no step, the book is as it was, and places and room are
    /// kept for all that is owed.
    ///
    /// [`HallFault::Full`] is returned exactly if what is owed would fill the next volume, or if the volume's index is the
    /// greatest u64; [`HallFault::NoMemory`] if an allocation failed. Neither changes anything.
    pub fn roll(&mut self) -> Result<Volume, HallFault>
        ensures ok { IfOk result (λ v. (v ≡ volume_of self.old) × (self.new ≡ rolled self.old)) }
        ensures err { OnErr result (self.new ≡ self.old) }
        ensures sound { IsRecord self.new }
        ensures full { (result ≡ Err HallFault.Full) ↔ CannotRoll self.old }
    {
        let count = self.before + self.journal.steps().len() as u64;
        let places = places_after(self.limit, count);
        if places <= self.journal.reserved() || self.index == u64::MAX {
            return Err(HallFault::Full);
        }
        let Ok(steps) = self.journal.roll(places) else {
            return Err(HallFault::NoMemory);
        };
        let closing = Snapshot::of(&self.book);
        let volume = Volume {
            hall: self.no,
            index: self.index,
            before: self.before,
            opening: mem::replace(&mut self.opening, Snapshot::of(&self.book)),
            closing,
            steps,
        };
        self.before = count;
        self.index += 1;
        Ok(volume)
    }

    /// Keeps the memory of these steps, and returns what was kept before. The volume that is being recorded takes it, if it has no step yet and no more
    /// memory; else the next one does. Both forget the steps. A volume that is done with gives its own ([`Volume::into_steps`]): new memory would be touched
    /// for the first time during a turn, which takes longer than the turn.
    pub fn keep_memory(&mut self, steps: Vec<Recorded>) -> Vec<Recorded>
        ensures { self.new ≡ self.old }
    {
        self.journal.keep_memory(steps)
    }
}

/// How many steps a volume may have that opens after so many: none has a number past 2 ^ 61.
fn places_after(limit: usize, before: u64) -> usize
    requires { before ≤ 2 ^ 61 }
    ensures { result ≡ places_after limit before }
{
    let left = MAX_NUMBER - before;
    if limit as u64 <= left {
        limit
    } else {
        left as usize
    }
}
