//! The path of a socket, and what is done there.
ghost use Rattle.std.specs.Prelude.{◌≡◌, [], ◌∷◌, List, Option, is_ok};
ghost use Rattle.std.specs.Result.{result_ok};
ghost use Rattle.rk_daemon.specs.Story.{and_then};
ghost use Rattle.rk_daemon.specs.Place.{Act, Bound, Permitted, Listened, Probed, Identified, Removed, failure};

use std::io;

/// Which file it is: its device, its number there, and when it was written last, which is when a socket was made (`stat(2)`). The number of a file that
/// is gone is given to a new one, so without the time the socket of a later daemon might be taken for that of an earlier one.
#[derive(Clone, Copy, Debug, PartialEq, Eq)]
pub struct FileId {
    /// The device on which it is.
    pub device: u64,
    /// Its number on that device.
    pub number: u64,
    /// When it was written last, in whole seconds.
    pub seconds: i64,
    /// The rest of that time, in nanoseconds.
    pub nanoseconds: i64,
}

/// Who does what is to be done at the path of a socket. It may tell what was done, as a test's does; the system's tells nothing.
pub trait Place {
    /// What was done, first things first, if it tells that.
    ghost story: { Self → Option (List Act) };

    /// A socket that is bound to a path, to which nobody can connect yet.
    type Socket: Drop;

    /// A socket that listens.
    type Listener: Drop;

    /// Makes a socket and its file at the path. The error is `AddrInUse` if a file stands there.
    fn bind(&mut self, path: &str) -> io::Result<Self::Socket>
        ensures { story self.new ≡ and_then (story self.old) (Bound path.now (failure result) ∷ []) };

    /// Gives the file at the path these permission bits.
    fn permit(&mut self, path: &str, mode: u32) -> io::Result<()>
        ensures { story self.new ≡ and_then (story self.old) (Permitted path.now mode (is_ok result) ∷ []) };

    /// Has the socket listen: from then on, whoever may open its file can connect.
    fn listen(&mut self, socket: Self::Socket) -> io::Result<Self::Listener>
        ensures { story self.new ≡ and_then (story self.old) (Listened (is_ok result) ∷ []) };

    /// Whether a socket stands at the path on which nobody listens, or nothing any more, since whoever had it has removed it meanwhile.
    fn is_left_over(&mut self, path: &str) -> io::Result<bool>
        ensures { story self.new ≡ and_then (story self.old) (Probed path.now (result_ok result) ∷ []) };

    /// Which file stands at the path, a link not followed.
    fn identify(&mut self, path: &str) -> io::Result<FileId>
        ensures { story self.new ≡ and_then (story self.old) (Identified path.now (result_ok result) ∷ []) };

    /// Removes the file at the path, if it is still there.
    fn remove(&mut self, path: &str) -> io::Result<()>
        ensures { story self.new ≡ and_then (story self.old) (Removed path.now (is_ok result) ∷ []) };
}
