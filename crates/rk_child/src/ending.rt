//! The end of a child.
ghost use Rattle.std.specs.Prelude.{◌≡◌};
ghost use Rattle.rk_child.specs.Driving.{EndsAs, payload_in, told_with, without_payload};

use rk_devices::{Child, Driven, OutputFault, ReadFault};
use rk_machine::How;
use rk_names::Payload;

/// Closes the input of a child whose output was read, and waits for its end; where its output could not be read, it is not waited for.
pub fn wait_for<C: Child>(child: &mut C, read: Result<(), ReadFault>) -> Driven
    ensures { EndsAs read result (C.shown child.old) (C.shown child.new) }
{
    if read.is_err() {
        return Driven::ReadFailed;
    }
    child.close_input();
    match child.wait() {
        Ok(how) => Driven::Ended(how),
        Err(_) => Driven::WaitFailed,
    }
}

/// What is reported of a command that has ended so, and the payload for its key, where its output is one. A plain handler has no output here.
pub fn with_output(
    ended: Driven,
    output: Option<Result<Payload, OutputFault>>,
) -> (Driven, Option<Payload>)
    ensures told { result.0 ≡ told_with ended output }
    ensures payload { result.1 ≡ payload_in output }
{
    match output {
        None => (ended, None),
        Some(Ok(payload)) => (ended, Some(payload)),
        Some(Err(fault)) => (without_payload(ended, fault), None),
    }
}

/// What is reported of a command that has ended so, and whose output is no payload. One that has failed owes none.
fn without_payload(ended: Driven, fault: OutputFault) -> Driven
    ensures { result ≡ without_payload ended fault }
{
    match ended {
        Driven::Ended(How::Exit(0)) => Driven::NoPayload(fault),
        _ => ended,
    }
}
