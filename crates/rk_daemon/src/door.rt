//! Where connections come in, and what is done there.
ghost use Rattle.std.specs.Prelude.{◌≡◌, [], ◌∷◌, List, Option, is_ok};
ghost use Rattle.rk_daemon.specs.Story.{and_then};
ghost use Rattle.rk_daemon.specs.Door.{Act, Watched, Accepted, Paused, HandedOut};

use std::io;

/// Where connections come in, and are handed to those who serve them. It may tell what was done, as a test's does; the system's tells nothing.
pub trait Door {
    /// What was done, first things first, if it tells that.
    ghost story: { Self → Option (List Act) };

    /// A connection.
    type Connection: Drop;

    /// Waits for a connection, or for the end of standard input; whether that has come first.
    fn is_over(&mut self) -> bool
        ensures { story self.new ≡ and_then (story self.old) (Watched result ∷ []) };

    /// Accepts a connection, for which it waits. It fails where no descriptor is left, say.
    fn accept(&mut self) -> io::Result<Self::Connection>
        ensures { story self.new ≡ and_then (story self.old) (Accepted (is_ok result) ∷ []) };

    /// Does nothing for a while, so that what an accept needs may come free.
    fn pause(&mut self)
        ensures { story self.new ≡ and_then (story self.old) (Paused ∷ []) };

    /// Hands a connection with its number to the workers, for whom it waits; whether there still are some.
    fn hand_out(&mut self, number: u32, connection: Self::Connection) -> bool
        ensures { story self.new ≡ and_then (story self.old) (HandedOut number result ∷ []) };
}
