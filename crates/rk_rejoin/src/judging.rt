//! Whether volumes are a run of the machine.
ghost use Rattle.std.specs.Prelude.{◌≡◌, ◌≤◌, length, IfOk, IfErr, OnOk};
ghost use Rattle.std.specs.List.{AllByRecursion};
ghost use Rattle.rk_hall.specs.Locked.{first_serial};
ghost use Rattle.rk_record.specs.declared.hall_no.HallNo.TheVariants as hall;
ghost use Rattle.rk_rejoin.specs.Chains.{run_of, run_of_first};
ghost use Rattle.rk_rejoin.specs.Judged.{negative_of, of_hall, joined, AreNext, AreClosedAlike, IsRecordOf};
ghost use Rattle.rk_rejoin.specs.Refused.{HasNoCommon, IsHallRefused, IsRefusedFor, NamesStep};

use crate::chain::chain_of_hall;
use crate::closing::are_closed_alike;
use crate::joining::steps_of_hall;
use crate::one_run::have_one_run;
use crate::part::{Part, Total};
use crate::verdict::Verdict;
use rk_core::Limits;
use rk_hall::{HallNo, Rejoin, rejoin};
use rk_names::Serial;
use rk_volumes::Stored;
use std::alloc::Global;

/// What volumes are that stand by rising index within each hall. `Ok` says how much of each hall's record they are: from its first step on, with no volume
/// left out or there twice, all of one run, each after the one that it names, and a run of the machine that obeys its laws. Either all halls' records are
/// closed, or none is. A [`Verdict`] says what is wrong first. Nothing is changed.
pub fn judge(alloc: Global, volumes: &[Stored]) -> Result<Total, Verdict>
    ensures negative { OnOk result (AllByRecursion (λ v. v.head.negative ≡ negative_of volumes.now) volumes.now) }
    ensures zero { IfOk result (λ t. IsRecordOf (negative_of volumes.now) volumes.now hall.Zero t.zero) }
    ensures one { IfOk result (λ t. IsRecordOf (negative_of volumes.now) volumes.now hall.One t.one) }
    ensures two { IfOk result (λ t. IsRecordOf (negative_of volumes.now) volumes.now hall.Two t.two) }
    ensures three { IfOk result (λ t. IsRecordOf (negative_of volumes.now) volumes.now hall.Three t.three) }
    ensures run { OnOk result (AllByRecursion (λ v. run_of v ≡ run_of_first volumes.now) volumes.now) }
    ensures closed { IfOk result AreClosedAlike }
    ensures refused { IfErr result (λ f. IsRefusedFor volumes.now f) }
{
    let negative = common_negative(volumes)?;
    have_one_run(volumes)?;
    let total = Total {
        zero: judge_hall(alloc, negative, HallNo::Zero, volumes)?,
        one: judge_hall(alloc, negative, HallNo::One, volumes)?,
        two: judge_hall(alloc, negative, HallNo::Two, volumes)?,
        three: judge_hall(alloc, negative, HallNo::Three, volumes)?,
    };
    are_closed_alike(&total)?;
    Ok(total)
}

/// The seconds of a negative key, which all volumes have in common.
fn common_negative(volumes: &[Stored]) -> Result<u32, Verdict>
    ensures first { IfOk result (λ n. n ≡ negative_of volumes.now) }
    ensures all { IfOk result (λ n. AllByRecursion (λ v. v.head.negative ≡ n) volumes.now) }
    ensures refused { IfErr result (λ f. HasNoCommon volumes.now f) }
{
    let Some(first) = volumes.first() else {
        return Err(Verdict::Nothing);
    };
    let negative = first.head.negative;
    for volume in volumes {
        if volume.head.negative != negative {
            return Err(Verdict::OtherNegative {
                hall: volume.head.hall.number(),
                index: volume.head.index,
            });
        }
    }
    Ok(negative)
}

/// What the volumes of one hall are.
fn judge_hall(
    alloc: Global,
    negative: u32,
    hall: HallNo,
    volumes: &[Stored],
) -> Result<Part, Verdict>
    ensures is { IfOk result (λ part. IsRecordOf negative volumes.now hall part) }
    ensures refused { IfErr result (λ f. IsHallRefused negative hall volumes.now f) }
{
    let steps = steps_of_hall(alloc, hall, volumes)?;
    let closed = chain_of_hall(hall, volumes)?;
    match rejoin(alloc, limits_of(negative, hall), &steps) {
        Ok(count) => Ok(Part {
            volumes: steps.len() as u64,
            steps: count,
            closed,
        }),
        Err(Rejoin::Broken { number }) => Err(broken_at(hall, number, volumes)),
        Err(Rejoin::NoMemory) => Err(Verdict::NoMemory),
    }
}

/// The step of this number in a hall's record, by its volume.
fn broken_at(hall: HallNo, number: u64, volumes: &[Stored]) -> Verdict
    requires next { AreNext 0 0 (of_hall hall volumes.now) }
    requires within { (1 ≤ number) × (number ≤ length (joined hall volumes.now)) }
    ensures { NamesStep hall volumes.now number result }
{
    for volume in volumes {
        let head = &volume.head;
        if head.hall.number() == hall.number() {
            let step = number - head.before;
            if step <= volume.steps.len() as u64 {
                return Verdict::Broken {
                    hall: hall.number(),
                    index: head.index,
                    step,
                };
            }
        }
    }
    unreachable!()
}

/// What a hall begins with: each draws every fourth serial.
fn limits_of(negative: u32, hall: HallNo) -> Limits
    ensures { result ≡ record { negative = negative; first = first_serial hall; stride = 4; seed = 0 } }
{
    Limits {
        negative,
        first: first_serial(hall),
        stride: 4,
        seed: 0,
    }
}

/// The first serial that a hall draws: its number, and 4 for hall 0.
fn first_serial(hall: HallNo) -> Serial
    ensures { result ≡ first_serial hall }
{
    let number = match hall {
        HallNo::Zero => 4,
        HallNo::One => 1,
        HallNo::Two => 2,
        HallNo::Three => 3,
    };
    match Serial::new(number) {
        Some(serial) => serial,
        None => unreachable!(),
    }
}
