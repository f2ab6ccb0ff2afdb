//! A volume of a record, of one `Halls`.
ghost use Rattle.std.specs.Prelude.{◌≡◌, ◌↔◌, IsTrue};
ghost use Rattle.rk_record.specs.Record.{Runs, GoesOn};

use crate::names::Names;
use rk_record::{HallNo, Receipt, Recorded};
use std::marker::{Model, PhantomData};

/// A volume of a hall's record, handed out. It works only with the `Halls` that made it.
#[derive(Drop)]
pub struct Volume<N: Names> {
    /// The volume of the record.
    pub(crate) volume: rk_record::Volume,
    /// The `Halls` that made it, by their type.
    pub(crate) names: PhantomData<N>,
}

impl<N: Names> Model for Volume<N> {
    ghost use Rattle.rk_record.specs.Volumes.{VolumeShown, volume_code};

    ghost Value = { VolumeShown };

    ghost coded = { volume_code };

    ghost view = { λ v. v.volume };
}

impl<N: Names> Volume<N> {
    /// The hall whose record it is of.
    pub fn hall(&self) -> HallNo
        ensures { result ≡ self.now.hall }
    {
        self.volume.hall()
    }

    /// Which volume of the hall it is, from 1.
    pub fn index(&self) -> u64
        ensures { result ≡ self.now.index }
    {
        self.volume.index()
    }

    /// How many steps the volumes before it have: the number of its first step is one more.
    pub fn before(&self) -> u64
        ensures { result ≡ self.now.before }
    {
        self.volume.before()
    }

    /// Its steps, in order.
    pub fn steps(&self) -> &[Recorded]
        ensures steps { result.now ≡ self.now.steps }
        ensures run { Runs self.now.opening self.now.steps self.now.closing }
        ensures goes_on { GoesOn self.now.before self.now.opening self.now.steps self.now.closing }
    {
        self.volume.steps()
    }

    /// Its steps by value.
    pub(crate) fn into_steps(self) -> Vec<Recorded>
        ensures { result.items ≡ self.steps }
    {
        let Volume { volume, names: _ } = self;
        volume.into_steps()
    }

    /// Whether it is the one that a receipt names.
    pub(crate) fn is_named_by(&self, receipt: &Receipt) -> bool
        ensures { IsTrue result ↔ ((self.now.hall ≡ receipt.now.hall) × (self.now.index ≡ receipt.now.volume)) }
    {
        self.hall() == receipt.hall() && self.index() == receipt.volume()
    }
}
