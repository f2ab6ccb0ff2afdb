//! A program in a session ring of its own.
ghost use Rattle.std.specs.Prelude.{◌≡◌};
ghost use Rattle.rk_ctl.specs.Programs.{RunsTo, told_fault};

use crate::telling::{no_file, no_memory, no_peer, no_program, refusal};
use rk_message::Reply;
use rk_run::{Host, RunFault, Wanted, run};
use std::alloc::Global;
use std::io::Write;

/// The status for a program that is not there, as a shell tells it.
const NOT_FOUND: u8 = 127;

/// The status for a program that can't be started, as a shell tells it.
const UNSTARTABLE: u8 = 126;

/// What stood in the way where the system gave no reason: no path was named, or what answered there is no daemon.
const NOBODY: &str = "no daemon answered; --socket or REQKEYD_SOCKET names its socket";

/// Runs the program that is wanted, and gives its status, or that of the fault, which is printed.
pub fn run_program<H: Host, E: Write>(
    alloc: Global,
    host: &mut H,
    wanted: &Wanted<'_>,
    errors: &mut E,
) -> u8
    ensures { RunsTo wanted.now (H.story host.old) (H.story host.new) result }
{
    match run(alloc, host, wanted) {
        Ok(status) => status,
        Err(fault) => not_run(alloc, fault, host.trouble(), errors),
    }
}

/// Tells why there is no status of a program, and what stood in the way.
fn not_run<E: Write>(alloc: Global, fault: RunFault, trouble: Option<&str>, errors: &mut E) -> u8
    ensures { result ≡ told_fault fault }
{
    match fault {
        RunFault::Socket => no_peer(trouble.or(Some(NOBODY)), errors),
        RunFault::Refused(errno) => refusal(alloc, Reply::Refused(errno), errors),
        RunFault::File => no_file(trouble, errors),
        RunFault::NotFound => {
            no_program(trouble, errors);
            NOT_FOUND
        }
        RunFault::Unstartable => {
            no_program(trouble, errors);
            UNSTARTABLE
        }
        RunFault::Unknown => {
            no_program(trouble, errors);
            1
        }
        RunFault::NoMemory => no_memory(errors),
    }
}
