//! A hall without a step.
ghost use Rattle.std.specs.Prelude.{◌≡◌, ◌≤◌, IfOk};
ghost use Rattle.rk_machine.specs.World.{empty_world};
ghost use Rattle.rk_machine.specs.Owing.{constructions};
ghost use Rattle.rk_hall.specs.Locked.{taken, first_serial};

use rk_core::Limits;
use rk_names::Serial;
use rk_record::{Hall, HallNo};
use std::alloc::{AllocError, Global};

/// A hall without a step, which draws every fourth serial.
pub(crate) fn empty_hall(
    alloc: Global,
    no: HallNo,
    negative: u32,
    seed: u64,
    steps: usize,
) -> Result<Hall, AllocError>
    requires { (1 ≤ steps) × (steps ≤ 1048576) }
    ensures no { IfOk result (λ h. h.no ≡ no) }
    ensures steps { IfOk result (λ h. taken h ≡ 0) }
    ensures constructions { IfOk result (λ h. constructions h.world ≡ 0) }
    ensures serials { IfOk result (λ h. h.world ≡ empty_world negative (first_serial no) 4) }
{
    let limits = Limits {
        negative,
        first: first_serial(no),
        stride: 4,
        seed,
    };
    let hall = Hall::new(alloc, limits, no, steps)?;
    Ok(hall)
}

/// The first serial that a hall draws: its number, and 4 for hall 0.
fn first_serial(no: HallNo) -> Serial
    ensures { result ≡ first_serial no }
{
    let number = match no {
        HallNo::Zero => 4,
        HallNo::One => 1,
        HallNo::Two => 2,
        HallNo::Three => 3,
    };
    match Serial::new(number) {
        Some(serial) => serial,
        None => unreachable!(),
    }
}
