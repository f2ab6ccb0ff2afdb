//! What a run does outside of itself.
ghost use Rattle.std.specs.Prelude.{◌≡◌, [], ◌∷◌, List, Option};
ghost use Rattle.rk_run.specs.Story.{Event, Sought, Greeted, Started, Waited, Closed, Looks, and_then};
ghost use Rattle.rk_variables.specs.Starts.{start_of};

use rk_client::PeerFault;
use rk_message::{Ask, Reply};
use std::alloc::AllocError;
use std::process::{Command, ExitStatus};
use thiserror::Error;

/// Who runs a program, and what is there for it.
#[derive(Debug, Drop)]
pub struct Here {
    /// The effective user.
    pub uid: u32,
    /// The effective group.
    pub gid: u32,
    /// What is preloaded already, `LD_PRELOAD`.
    pub preloaded: Option<String>,
    /// The socket of the caller's environment, `REQKEYD_SOCKET`.
    pub socket: Option<String>,
    /// The folder in which it is run, if that is known.
    pub folder: Option<String>,
    /// Where the library is installed.
    pub installed: String,
    /// Where `reqkey-trap` is installed.
    pub trap: String,
}

/// Why a program was not started.
#[derive(Clone, Copy, Debug, PartialEq, Eq, Error)]
pub enum StartFault {
    /// There is no such program.
    #[error("there is no such program")]
    NotFound,
    /// It can't be started.
    #[error("the program can't be started")]
    Unstartable,
    /// There was no memory.
    #[error("out of memory")]
    NoMemory,
}

/// What a run does outside of itself. It may tell what was done of it, as a test's does; the system's tells nothing.
pub trait Host {
    /// What was done, first things first, if it tells that.
    ghost story: { Self → Option (List Event) };

    /// Looks who runs the program, and what is there. The only refusal is out of memory.
    fn look(&mut self) -> Result<Here, AllocError>
        ensures { Looks result (story self.old) (story self.new) };

    /// Whether there is such a file.
    fn has(&mut self, path: &str) -> bool
        ensures { story self.new ≡ and_then (story self.old) (Sought path.now result ∷ []) };

    /// Connects to the socket at this path, asks this as the first thing, and reads its reply. With a reply the connection stays open until
    /// [`Host::close`]; with a fault there is none.
    fn greet(&mut self, path: &str, ask: &Ask) -> Result<Reply, PeerFault>
        ensures { story self.new ≡ and_then (story self.old) (Greeted path.now ask.now result ∷ []) };

    /// Starts a program, with the standard streams of this one.
    fn start(&mut self, command: Command) -> Result<(), StartFault>
        ensures { story self.new ≡ and_then (story self.old) (Started (start_of command) result ∷ []) };

    /// Waits until the program that was started has ended, and tells how; `None` if the system doesn't tell.
    fn wait(&mut self) -> Option<ExitStatus>
        ensures { story self.new ≡ and_then (story self.old) (Waited result ∷ []) };

    /// Closes the connection.
    fn close(&mut self)
        ensures { story self.new ≡ and_then (story self.old) (Closed ∷ []) };

    /// What stood in the way of the last call that failed, if that is known: a text to be shown, with a path and what the system says of it.
    fn trouble(&self) -> Option<&str>;
}
