//! A volume of a record, handed out.
ghost use Rattle.std.specs.Prelude.{◌≡◌};
ghost use Rattle.rk_record.specs.Record.{Runs, GoesOn};

use crate::hall_no::HallNo;
use crate::recorded::Recorded;
use rk_core::Book;
use std::marker::Model;
use std::snapshot::Snapshot;

/// A volume of a hall's record, handed out. A run of as many steps as the volumes before it have leads to the state in which it opened, and goes on
/// with its steps to that in which it closed.
#[derive(Drop)]
pub struct Volume {
    /// Whose record it is of.
    pub(crate) hall: HallNo,
    /// Which volume of the hall it is, from 1.
    pub(crate) index: u64,
    /// How many steps the volumes before it have.
    pub(crate) before: u64,
    /// The state in which it opened.
    pub(crate) opening: Snapshot<Book>,
    /// The state in which it closed.
    pub(crate) closing: Snapshot<Book>,
    /// The steps, oldest first.
    pub(crate) steps: Vec<Recorded>,
}

impl Model for Volume {
    ghost use Rattle.rk_record.specs.Volumes.{VolumeShown, volume_code, IsVolume};

    ghost Value = { VolumeShown };

    ghost coded = { volume_code };

    ghost view = { λ v. record {
      hall = v.hall;
      index = v.index;
      before = v.before;
      opening = v.opening.value;
      closing = v.closing.value;
      steps = v.steps.items;
    } };

    ghost invariant = { λ v. IsVolume v.before v.opening.value v.steps.items v.closing.value };
}

impl Volume {
    /// The hall whose record it is of.
    pub fn hall(&self) -> HallNo
        ensures { result ≡ self.now.hall }
    {
        self.hall
    }

    /// Which volume of the hall it is, from 1.
    pub fn index(&self) -> u64
        ensures { result ≡ self.now.index }
    {
        self.index
    }

    /// How many steps the volumes before it have: the number of its first step is one more.
    pub fn before(&self) -> u64
        ensures { result ≡ self.now.before }
    {
        self.before
    }

    /// Its steps, in order.
    pub fn steps(&self) -> &[Recorded]
        ensures steps { result.now ≡ self.now.steps }
        ensures run { Runs self.now.opening self.now.steps self.now.closing }
        ensures goes_on { GoesOn self.now.before self.now.opening self.now.steps self.now.closing }
    {
        &self.steps
    }

    /// Its steps by value, for whoever takes their memory ([`Hall::keep_memory`](crate::Hall::keep_memory)).
    pub fn into_steps(self) -> Vec<Recorded>
        ensures { result.items ≡ self.steps }
    {
        self.steps
    }
}
