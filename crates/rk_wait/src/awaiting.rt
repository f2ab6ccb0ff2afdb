//! Waiting for the outcome of a session's wait.
ghost use Rattle.std.specs.Prelude.{◌≡◌, ◌≢◌, ℕ, IfOk, Err};
ghost use Rattle.rk_hall.specs.Seats.{IsOutcomeOrNone, OwedSeen};

use rk_hall::{HallNo, Halls, Lapse, Names, Owed, Seat};
use rk_machine::{Answer, EventOf};
use rk_names::{Errno, Moment, SessionId};
use std::sync::Wait;

/// Waits until the session's wait may be collected, and collects its outcome: the serial of the key, or an error. It takes no memory.
///
/// If the session does not wait, the answer is `Refused(Einval)`, with `Stray`. The answer is never `Waiting`.
pub fn await_outcome<N: Names, R: Wait>(
    rt: &R,
    halls: &Halls<N>,
    seat: &mut Seat<N>,
    hall: HallNo,
    session: SessionId,
    now: Moment,
) -> Owed<Answer>
    ensures step { OwedSeen hall now (EventOf.Collect session) seat.old seat.new result.receipt }
    ensures value { IfOk result.receipt (λ r. r.answer ≡ result.value) }
    ensures outcome { IsOutcomeOrNone result.value }
    ensures stray { result.receipt ≡ Err Lapse.Stray → result.value ≡ Answer.Refused Errno.Einval }
{
    let (place, waiting) = (hall, session);
    halls.until_ready(rt, place, waiting);
    halls.collect(rt, seat, hall, now, session)
}
