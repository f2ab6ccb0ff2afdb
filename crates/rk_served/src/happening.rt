//! What happens to a replay.
ghost use Rattle.std.specs.Prelude.{◌≡◌};
ghost use Rattle.rk_served.specs.OwnStep.{whose};

use crate::bytes::Bytes;
use rk_core::How;
use rk_names::{Serial, SessionId};

/// What became of a command that was to be started.
#[derive(Clone, Copy, Debug, PartialEq, Eq)]
pub enum StartResult {
    /// The program runs.
    Started,
    /// It could not be started.
    Failed,
}

/// What happens, by the number of a client's connection or by the key of a handler.
#[derive(Debug, Drop)]
pub enum Happening {
    /// A client has connected.
    Accept(u32),
    /// The next bytes of a client's stream, cut anywhere.
    Bytes(u32, Bytes),
    /// A client's connection has ended, or could not be read or written.
    Gone(u32),
    /// The command for a key was started, or could not be.
    StartResult(Serial, StartResult),
    /// The next bytes that a handler output, cut anywhere.
    HandlerBytes(Serial, Bytes),
    /// The output of a handler could not be read.
    HandlerReadFault(Serial),
    /// A handler has ended.
    HandlerEnded(Serial, How),
    /// A handler could not be waited for.
    WaitFault(Serial),
}

impl Happening {
    /// The client or the handler to whom it happens.
    pub fn whose(&self) -> SessionId
        ensures { result ≡ whose self.now }
    {
        match self {
            Happening::Accept(client) | Happening::Bytes(client, _) | Happening::Gone(client) => {
                SessionId::Client(*client)
            }
            Happening::StartResult(key, _)
            | Happening::HandlerBytes(key, _)
            | Happening::HandlerReadFault(key)
            | Happening::HandlerEnded(key, _)
            | Happening::WaitFault(key) => SessionId::Handler(*key),
        }
    }
}
