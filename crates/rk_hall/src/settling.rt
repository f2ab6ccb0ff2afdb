//! Whether seats and receipts agree with the records, when all is over.
ghost use Rattle.std.specs.Prelude.{◌≡◌, ◌+◌, ◌≤◌, ◌^◌, MatchOption};
ghost use Rattle.rk_hall.specs.Settle.{total_of, AreGenuineBelow, HasFirstFault, AreSound, Settles, SettlesSome, Says};

use crate::closed::AllClosed;
use crate::four::in_all;
use crate::genuine::first_fault;
use crate::halls::Halls;
use crate::names::Names;
use crate::seat::Seat;
use crate::volume::Volume;
use rk_record::{HallNo, Receipt};
use thiserror::Error;

/// The sums of the four records.
#[derive(Clone, Copy, PartialEq, Eq, Debug)]
pub struct Total {
    /// The steps, of all volumes.
    pub steps: u64,
    /// The turns of the seats that were handed in.
    pub live: u64,
    /// The turns of the seats that were given back before.
    pub retired: u64,
    /// The tokens that were spent though nothing was owed.
    pub strays: u64,
}

/// Why a settlement fails.
#[derive(Clone, Copy, PartialEq, Eq, Debug, Error)]
pub enum SettleFault {
    /// There are so many steps, and the seats that were handed in or given back made only `held` turns: a seat is missed.
    #[error("the record has {steps} steps, and the seats {held}: one is missing")]
    Uneven { steps: u64, held: u64 },
    /// The first receipt at fault is of a volume that is neither the one that its hall records nor handed in.
    #[error("hall {}: volume {volume} is missing", .hall.number())]
    Missing { hall: HallNo, volume: u64 },
    /// The first receipt at fault has this number. It is not above those of its hall that come before it, or no step of its volume has its number,
    /// moment, event and answer.
    #[error("hall {}: receipt {number} does not stand in the record", .hall.number())]
    Forged { hall: HallNo, number: u64 },
}

/// Compares the records of four halls with the seats that made them and with the receipts that their calls returned. It takes no memory, and
/// ends the halls either way.
///
/// [`SettleFault::Uneven`] is returned exactly if the turns of the seats that are handed in, and of those that were given back, are not all
/// steps of the four halls. Else hall by hall, from hall 0 on, the first receipt at fault is sought. It is not numbered above those of its hall
/// before it, or does not stand in its volume with its moment, event and answer. [`SettleFault::Missing`] is returned where its volume is neither
/// the one that the hall records nor among those that are handed in; else [`SettleFault::Forged`]. Receipts of several halls may come in any
/// order among one another.
///
/// The records are those that stand under the locks in the end. No contract sees what a lock keeps, so no proof says that the calls before made them,
/// nor how many tokens went astray. What does not rest on the halls is said of what is handed in alone: the live turns are those of the seats, and
/// which receipt is at fault, and why.
pub fn settle<N: Names>(
    halls: Halls<N>,
    volumes: &[Volume<N>],
    seats: Vec<Seat<N>>,
    receipts: &[Receipt],
) -> Result<Total, SettleFault>
    ensures halls { SettlesSome volumes.now seats.items receipts.now result }
    ensures handed_in { Says volumes.now seats.items receipts.now result }
{
    let mut closed = AllClosed::of(halls);
    closed.take_in(seats);
    let settled = closed.settle(volumes, receipts);
    drop(closed);
    settled
}

impl<N: Names> AllClosed<N> {
    fn settle(&self, volumes: &[Volume<N>], receipts: &[Receipt]) -> Result<Total, SettleFault>
        ensures sound { AreSound self.now }
        ensures settles { Settles self.now volumes.now receipts.now result }
    {
        let total = self.total();
        let held = total.live + total.retired;
        if total.steps != held {
            return Err(SettleFault::Uneven {
                steps: total.steps,
                held,
            });
        }
        match self.first_fault(volumes, receipts) {
            Some(fault) => Err(fault),
            None => Ok(total),
        }
    }

    /// The sums of the four records.
    fn total(&self) -> Total
        ensures sums { result ≡ total_of self.now }
        ensures most { result.live + result.retired ≤ 2 ^ 63 }
        ensures sound { AreSound self.now }
    {
        Total {
            steps: in_all!(self.steps()),
            live: in_all!(self.live),
            retired: in_all!(self.retired),
            strays: in_all!(self.strays),
        }
    }

    /// The first fault of a receipt, hall by hall.
    fn first_fault(&self, volumes: &[Volume<N>], receipts: &[Receipt]) -> Option<SettleFault>
        ensures { MatchOption result (AreGenuineBelow self.now volumes.now receipts.now 4)
            (λ fault. HasFirstFault self.now volumes.now receipts.now fault) }
    {
        for hall in HallNo::ALL {
            match first_fault(self.hall(hall), volumes, receipts) {
                Some(fault) => return Some(fault),
                None => {}
            }
        }
        None
    }
}
