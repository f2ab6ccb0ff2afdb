//! Whether volumes are of one run.
ghost use Rattle.std.specs.Prelude.{◌≡◌, ◌≢◌, true, false, IfErr, OnOk};
ghost use Rattle.std.specs.List.{AllByRecursion};
ghost use Rattle.rk_rejoin.specs.Chains.{run_of, run_of_first};
ghost use Rattle.rk_rejoin.specs.Refused.{HasOtherRun};

use crate::verdict::Verdict;
use rk_volumes::Stored;

/// Whether all volumes are of the run of the first one.
pub(crate) fn have_one_run(volumes: &[Stored]) -> Result<(), Verdict>
    ensures all { OnOk result (AllByRecursion (λ v. run_of v ≡ run_of_first volumes.now) volumes.now) }
    ensures refused { IfErr result (λ f. HasOtherRun volumes.now f) }
{
    let Some(first) = volumes.first() else {
        return Ok(());
    };
    for volume in volumes {
        if !is_of_run(volume, first) {
            return Err(Verdict::OtherRun {
                hall: volume.head.hall.number(),
                index: volume.head.index,
            });
        }
    }
    Ok(())
}

/// Whether a volume is of the run of another one.
fn is_of_run(volume: &Stored, other: &Stored) -> bool
    ensures same { result ≡ true → run_of volume.now ≡ run_of other.now }
    ensures differs { result ≡ false → run_of volume.now ≢ run_of other.now }
{
    match (&volume.seal, &other.seal) {
        (Some(sealed), Some(first)) => sealed.seal.run.as_slice() == first.seal.run.as_slice(),
        (None, None) => true,
        (Some(_), None) | (None, Some(_)) => false,
    }
}
