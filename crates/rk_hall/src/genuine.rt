//! Whether receipts are genuine: whether they stand in the record of their hall, by rising number.
ghost use Rattle.std.specs.Prelude.{◌≡◌, ◌↔◌, ◌<◌, ◌≤◌, ◌^◌, IsTrue, MatchOption, length};
ghost use Rattle.rk_record.specs.Volumes.{VolumeShown};
ghost use Rattle.rk_hall.specs.Settle.{StandsIn, IsHandedIn, HasVolume, Stands, AreGenuine, IsFaultOf, HasFault};

use crate::names::Names;
use crate::settling::SettleFault;
use crate::volume::Volume;
use rk_record::{Hall, Receipt, Recorded};

/// The fault of the first receipt of the hall that is not genuine.
pub(crate) fn first_fault<N: Names>(
    hall: &Hall,
    volumes: &[Volume<N>],
    receipts: &[Receipt],
) -> Option<SettleFault>
    ensures { MatchOption result (AreGenuine hall.now volumes.now receipts.now (length receipts.now))
        (λ fault. HasFault hall.now volumes.now receipts.now fault) }
{
    let mut last = 0;
    for receipt in receipts {
        if !is_of(hall, receipt) {
            continue;
        }
        if !is_genuine(hall, volumes, last, receipt) {
            return Some(fault_of(hall, volumes, receipt));
        }
        last = receipt.number();
    }
    None
}

/// Whether a receipt is of this hall.
fn is_of(hall: &Hall, receipt: &Receipt) -> bool
    ensures { IsTrue result ↔ (receipt.now.hall ≡ hall.now.no) }
{
    receipt.hall() == hall.no()
}

/// Whether a receipt of this hall is genuine, where those before it have numbers up to this one.
fn is_genuine<N: Names>(hall: &Hall, volumes: &[Volume<N>], last: u64, receipt: &Receipt) -> bool
    ensures { IsTrue result ↔ ((last < receipt.now.number) × Stands hall.now volumes.now receipt.now) }
{
    last < receipt.number() && stands(hall, volumes, receipt)
}

/// What is said of a receipt that is not genuine.
fn fault_of<N: Names>(hall: &Hall, volumes: &[Volume<N>], receipt: &Receipt) -> SettleFault
    ensures { IsFaultOf hall.now volumes.now receipt.now result }
{
    if has_volume(hall, volumes, receipt) {
        SettleFault::Forged {
            hall: receipt.hall(),
            number: receipt.number(),
        }
    } else {
        SettleFault::Missing {
            hall: receipt.hall(),
            volume: receipt.volume(),
        }
    }
}

/// Whether the volume that a receipt names is the one that the hall records, or was handed in.
fn has_volume<N: Names>(hall: &Hall, volumes: &[Volume<N>], receipt: &Receipt) -> bool
    ensures { IsTrue result ↔ HasVolume hall.now volumes.now receipt.now }
{
    receipt.volume() == hall.index() || was_handed_in(volumes, receipt)
}

fn was_handed_in<N: Names>(volumes: &[Volume<N>], receipt: &Receipt) -> bool
    ensures { IsTrue result ↔ ((v : VolumeShown) × IsHandedIn volumes.now receipt.now v) }
{
    for volume in volumes {
        if volume.is_named_by(receipt) {
            return true;
        }
    }
    false
}

/// Whether a receipt stands in the volume that it names.
fn stands<N: Names>(hall: &Hall, volumes: &[Volume<N>], receipt: &Receipt) -> bool
    ensures { IsTrue result ↔ Stands hall.now volumes.now receipt.now }
{
    stands_in_present(hall, receipt) || stands_in_one(volumes, receipt)
}

fn stands_in_present(hall: &Hall, receipt: &Receipt) -> bool
    ensures { IsTrue result ↔ ((receipt.now.volume ≡ hall.now.index) × StandsIn hall.now.before hall.now.steps receipt.now) }
{
    receipt.volume() == hall.index() && stands_in(hall.before(), hall.steps(), receipt)
}

fn stands_in_one<N: Names>(volumes: &[Volume<N>], receipt: &Receipt) -> bool
    ensures { IsTrue result ↔ ((v : VolumeShown) × IsHandedIn volumes.now receipt.now v × StandsIn v.before v.steps receipt.now) }
{
    for volume in volumes {
        if stands_in_this(volume, receipt) {
            return true;
        }
    }
    false
}

fn stands_in_this<N: Names>(volume: &Volume<N>, receipt: &Receipt) -> bool
    ensures { IsTrue result ↔ (((volume.now.hall ≡ receipt.now.hall) × (volume.now.index ≡ receipt.now.volume))
        × StandsIn volume.now.before volume.now.steps receipt.now) }
{
    volume.is_named_by(receipt) && stands_in(volume.before(), volume.steps(), receipt)
}

/// Whether a receipt stands among these steps, which come after so many others.
fn stands_in(before: u64, steps: &[Recorded], receipt: &Receipt) -> bool
    ensures { IsTrue result ↔ StandsIn before steps.now receipt.now }
{
    let number = receipt.number();
    if number <= before {
        return false;
    }
    let place = number - before - 1;
    match steps.get(place as usize) {
        Some(step) => receipt.is_of(step),
        None => false,
    }
}
