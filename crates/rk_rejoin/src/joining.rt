//! The steps of a hall's volumes, joined.
ghost use Rattle.std.specs.Prelude.{◌≡◌, ◌+◌, ◌<◌, ◌^◌, length, map, IfOk, IfErr, OnOk};
ghost use Rattle.rk_rejoin.specs.Judged.{steps_of, of_hall, joined, AreNext};
ghost use Rattle.rk_rejoin.specs.Refused.{CannotJoin, IsNoNext};

use crate::verdict::Verdict;
use rk_hall::{HallNo, Recorded};
use rk_volumes::{Head, Stored};
use std::alloc::Global;

/// The steps of each volume of a hall, where each volume follows on the one before it.
pub(crate) fn steps_of_hall<'a>(
    alloc: Global,
    hall: HallNo,
    volumes: &'a [Stored],
) -> Result<Vec<&'a [Recorded]>, Verdict>
    ensures steps { IfOk result (λ v. map (λ s. s.now) v.items ≡ map steps_of (of_hall hall volumes.now)) }
    ensures next { OnOk result (AreNext 0 0 (of_hall hall volumes.now)) }
    ensures count { OnOk result (length (joined hall volumes.now) < 2 ^ 64) }
    ensures refused { IfErr result (λ f. CannotJoin hall volumes.now f) }
{
    let mut joined: Vec<&'a [Recorded]> = Vec::new(alloc);
    let mut before: u64 = 0;
    for volume in volumes {
        if volume.head.hall.number() == hall.number() {
            follows(&volume.head, joined.len() as u64, before)?;
            let Some(count) = before.checked_add(volume.steps.len() as u64) else {
                return Err(Verdict::NoMemory);
            };
            let Ok(()) = joined.push(volume.steps.as_slice()) else {
                return Err(Verdict::NoMemory);
            };
            before = count;
        }
    }
    Ok(joined)
}

/// Whether a volume follows on so many volumes with so many steps.
fn follows(head: &Head, volumes: u64, before: u64) -> Result<(), Verdict>
    ensures next { OnOk result ((head.now.index ≡ volumes + 1) × (head.now.before ≡ before)) }
    ensures refused { IfErr result (λ f. IsNoNext head.now volumes before f) }
{
    let (hall, index) = (head.hall.number(), head.index);
    if index == 0 {
        return Err(Verdict::Uncounted { hall });
    }
    if index <= volumes {
        return Err(Verdict::Twice { hall, index });
    }
    if index - volumes != 1 {
        return Err(Verdict::Missing {
            hall,
            index: volumes + 1,
        });
    }
    if head.before != before {
        return Err(Verdict::Apart { hall, index });
    }
    Ok(())
}
