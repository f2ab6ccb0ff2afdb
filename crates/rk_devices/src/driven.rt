//! How a launch was brought to its end.
ghost use Rattle.std.specs.Prelude.{◌≡◌};
ghost use Rattle.rk_devices.specs.Ends.{told_end};

use crate::output::OutputFault;
use rk_machine::How;
use rk_macro::ExpandFault;
use std::fmt;

/// How a launch was brought to its end: what became of its command, or if another command followed it and was started, of that one.
#[derive(Clone, Copy, Debug, PartialEq, Eq)]
pub enum Driven {
    /// The command ran, and has ended so.
    Ended(How),
    /// The command of a piped handler has exited with 0, and its output is no payload.
    NoPayload(OutputFault),
    /// No line of the configuration fits, so there is no command.
    NotStarted,
    /// A line fits, and the words of its command can't be made.
    NotMade(ExpandFault),
    /// There is a command, and there was no memory for what its run needs.
    NoMemory,
    /// The start failed.
    StartFailed,
    /// A read of its output failed, or its 1,048,576 reads were used up. It was not waited for.
    ReadFailed,
    /// The wait for its end failed.
    WaitFailed,
}

impl Driven {
    ghost use Rattle.std.specs.Prelude.{◌≡◌};
    ghost use Rattle.rk_devices.specs.Ends.{told_end};

    /// What is reported of its end.
    pub fn how(self) -> How
        ensures { result ≡ told_end self }
    {
        match self {
            Driven::Ended(how) => how,
            Driven::NoPayload(_) => How::Exit(0),
            _ => How::Fault,
        }
    }
}

/// Why the words of a command can't be made, in words.
fn reason(fault: ExpandFault) -> &'static str {
    match fault {
        ExpandFault::NoKey =>
            "an argument %{..} is the payload of a key that the requester doesn't find",
        ExpandFault::NotText => "a payload is no text",
        ExpandFault::TooLong => "the words are more than 65536 bytes",
        ExpandFault::NoMemory => "no memory",
    }
}

/// As an operator is warned of it.
impl fmt::Display for Driven {
    fn fmt<W: fmt::Write>(&self, f: &mut fmt::Formatter<W>) -> fmt::Result {
        match self {
            Driven::NoPayload(fault) => write!(f, "no payload ({})", fault),
            Driven::NotMade(fault) => write!(f, "{}: {}", fault, reason(*fault)),
            _ => write!(f, "{:?}", self),
        }
    }
}
