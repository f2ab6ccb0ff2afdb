//! Whether the volumes of a hall name one another's sums.
ghost use Rattle.std.specs.Prelude.{◌≡◌, Some, IfOk, IfErr, OnOk};
ghost use Rattle.rk_rejoin.specs.Judged.{of_hall};
ghost use Rattle.rk_rejoin.specs.Chains.{no_sum, link_of, is_closed, IsTied, AreChained};
ghost use Rattle.rk_rejoin.specs.Refused.{IsUntied, IsUnchained};

use crate::verdict::Verdict;
use rk_hall::HallNo;
use rk_volumes::{Stored, Sum};

/// What the first volume of a hall says of the one before it.
const NO_SUM: Sum = [0; 32];

/// Whether the last of a hall's volumes closes its record. A refusal is the first volume that does not say which one is before it, or that has a closing one
/// before it.
pub(crate) fn chain_of_hall(hall: HallNo, volumes: &[Stored]) -> Result<bool, Verdict>
    ensures chained { OnOk result (AreChained (Some no_sum) (of_hall hall volumes.now)) }
    ensures closed { IfOk result (λ closed. closed ≡ is_closed (of_hall hall volumes.now)) }
    ensures refused { IfErr result (λ f. IsUnchained hall volumes.now f) }
{
    let first = NO_SUM;
    let mut link = Some(first);
    for volume in volumes {
        if volume.head.hall.number() == hall.number() {
            link = next(link, volume)?;
        }
    }
    Ok(link.is_none())
}

/// What the volume after this one has to say of it, and nothing where it closes the record; where this one says so much of the one before it.
fn next(link: Option<Sum>, volume: &Stored) -> Result<Option<Sum>, Verdict>
    ensures tied { IfOk result (λ next. IsTied link volume.now × (next ≡ link_of volume.now)) }
    ensures refused { IfErr result (λ f. IsUntied link volume.now f) }
{
    let (hall, index) = (volume.head.hall.number(), volume.head.index);
    let Some(sealed) = &volume.seal else {
        let none = NO_SUM;
        return Ok(Some(none));
    };
    let Some(sum) = &link else {
        return Err(Verdict::Closed { hall, index });
    };
    if sealed.seal.previous.as_slice() != sum.as_slice() {
        return Err(Verdict::Unchained { hall, index });
    }
    if sealed.seal.closing {
        return Ok(None);
    }
    let sum = sealed.sum;
    Ok(Some(sum))
}
