//! Reading a child's output to its end.
ghost use Rattle.std.specs.Prelude.{◌≡◌, ◌≤◌, ◌-◌, OnOk, IfErr, true};
ghost use Rattle.rk_devices.specs.Shown.{FailsReading, GoesOn, IsGiven, IsHeard, IsKept, IsPiped, ReadsUpTo};

use crate::device::Child;
use crate::output::Output;
use rk_frame::{MAX_PIECE, MAX_READS};
use thiserror::Error;

/// Why a child's output was not read to its end.
#[derive(Clone, Copy, Debug, PartialEq, Eq, Error)]
pub enum ReadFault {
    /// A read failed.
    #[error("a read failed")]
    Failed,
    /// All reads are used up.
    #[error("the reads are used up")]
    UsedUp,
}

/// Reads to its end, and drops, the output of a child that was read so often; each read goes into the piece.
pub fn read_out<C: Child>(
    child: &mut C,
    reads: u32,
    piece: &mut [u8; MAX_PIECE],
) -> Result<(), ReadFault>
    requires { reads ≤ (C.shown child.old).reads }
    ensures goes_on { GoesOn (C.shown child.old) (C.shown child.new) }
    ensures heard { IsHeard result (C.shown child.old) (C.shown child.new) }
    ensures reads { ReadsUpTo (1048576 - reads) result (C.shown child.old) (C.shown child.new) }
    ensures end { OnOk result ((C.shown child.new).at_end ≡ true) }
    ensures fault { IfErr result (λ f. FailsReading f (C.shown child.old) (C.shown child.new)) }
{
    for _ in reads..MAX_READS {
        match child.read(piece) {
            Ok(0) => return Ok(()),
            Ok(_) => {}
            Err(_) => return Err(ReadFault::Failed),
        }
    }
    Err(ReadFault::UsedUp)
}

// Writes the callout to the input of a piped handler's child, and closes it. That it can't be written is passed over: a handler need not read it.
fn give<C: Child>(child: &mut C, callout: &[u8])
    ensures goes_on { GoesOn (C.shown child.old) (C.shown child.new) }
    ensures given { IsGiven callout.now (C.shown child.old) (C.shown child.new) }
    ensures reads { (C.shown child.new).reads ≡ (C.shown child.old).reads }
{
    if !callout.is_empty() {
        let _ = child.write(callout);
    }
    child.close_input();
}

// Keeps the output of a child, to its end.
fn keep<C: Child>(
    child: &mut C,
    output: &mut Output,
    piece: &mut [u8; MAX_PIECE],
) -> Result<(), ReadFault>
    ensures goes_on { GoesOn (C.shown child.old) (C.shown child.new) }
    ensures kept { IsKept result (C.shown child.old) (C.shown child.new) output.old output.new }
    ensures reads { ReadsUpTo 1048576 result (C.shown child.old) (C.shown child.new) }
    ensures end { OnOk result ((C.shown child.new).at_end ≡ true) }
    ensures fault { IfErr result (λ f. FailsReading f (C.shown child.old) (C.shown child.new)) }
{
    for _ in 0..MAX_READS {
        match child.read(piece) {
            Ok(0) => return Ok(()),
            Ok(count) => output.add(&piece[..count]),
            Err(_) => return Err(ReadFault::Failed),
        }
    }
    Err(ReadFault::UsedUp)
}

/// Gives the callout to a piped handler's child, and keeps the child's output, to its end; each read goes into the piece. That the input can't be
/// written is passed over: a handler need not read it.
pub fn pipe_through<C: Child>(
    child: &mut C,
    callout: &[u8],
    output: &mut Output,
    piece: &mut [u8; MAX_PIECE],
) -> Result<(), ReadFault>
    ensures goes_on { GoesOn (C.shown child.old) (C.shown child.new) }
    ensures piped { IsPiped callout.now result (C.shown child.old) (C.shown child.new) output.old output.new }
    ensures reads { ReadsUpTo 1048576 result (C.shown child.old) (C.shown child.new) }
    ensures end { OnOk result ((C.shown child.new).at_end ≡ true) }
    ensures fault { IfErr result (λ f. FailsReading f (C.shown child.old) (C.shown child.new)) }
{
    give(child, callout);
    keep(child, output, piece)
}
