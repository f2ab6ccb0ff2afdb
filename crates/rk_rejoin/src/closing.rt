//! Whether the records of all halls are closed.
ghost use Rattle.std.specs.Prelude.{◌≡◌, ◌⊎◌, IfErr, OnOk};
ghost use Rattle.rk_rejoin.specs.Judged.{part_of, AreClosedAlike};
ghost use Rattle.rk_rejoin.specs.Refused.{IsOpenBeside, IsOpenOf};

use crate::part::Total;
use crate::verdict::Verdict;
use rk_hall::HallNo;

/// Whether all halls' records are closed, or none is. A refusal names one that is not if another is.
pub(crate) fn are_closed_alike(total: &Total) -> Result<(), Verdict>
    ensures alike { OnOk result (AreClosedAlike total.now) }
    ensures refused { IfErr result (λ f. IsOpenBeside (λ h. (part_of total.now h).closed) f) }
{
    alike(
        (HallNo::Zero, total.zero.closed),
        (HallNo::One, total.one.closed),
    )?;
    alike(
        (HallNo::One, total.one.closed),
        (HallNo::Two, total.two.closed),
    )?;
    alike(
        (HallNo::Two, total.two.closed),
        (HallNo::Three, total.three.closed),
    )
}

/// Refuses that of two halls whose record is not closed where the other one's is.
fn alike(one: (HallNo, bool), other: (HallNo, bool)) -> Result<(), Verdict>
    ensures alike { OnOk result (one.1 ≡ other.1) }
    ensures refused { IfErr result (λ f. IsOpenOf one other f ⊎ IsOpenOf other one f) }
{
    match (one.1, other.1) {
        (true, true) | (false, false) => Ok(()),
        (false, true) => Err(Verdict::Unclosed {
            hall: one.0.number(),
        }),
        (true, false) => Err(Verdict::Unclosed {
            hall: other.0.number(),
        }),
    }
}
