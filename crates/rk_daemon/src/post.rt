//! What the daemon's clock looks after, and what it tells.
ghost use Rattle.std.specs.Prelude.{◌≡◌, [], ◌∷◌, List, Option};
ghost use Rattle.rk_daemon.specs.Story.{and_then};
ghost use Rattle.rk_daemon.specs.Post.{Act, Counted, FoundClients, FoundHandlers, FoundVolumes, Looked, Told, ToldLeftOut, ToldSlow};

use crate::figures::{Clients, Figures, InRun};
use rk_hall::{Counts, HallNo};

/// Where the daemon is looked at each second, and lines of the log are told. It may say what was done, as a test's does; the daemon's says nothing.
pub trait Post {
    /// What was done, first things first, if it tells that.
    ghost story: { Self → Option (List Act) };

    /// Whole seconds of the monotonic clock.
    fn seconds(&mut self) -> u64
        ensures { story self.new ≡ and_then (story self.old) (Looked result ∷ []) };

    /// Tells how many lines of each kind were left out in the minutes before this one.
    fn tell_left_out(&mut self, minute: u64)
        ensures { story self.new ≡ and_then (story self.old) (ToldLeftOut minute ∷ []) };

    /// Warns of each handler that has run for so many seconds now, and of which it was not warned.
    fn tell_slow(&mut self, now: u64, seconds: u64)
        ensures { story self.new ≡ and_then (story self.old) (ToldSlow now seconds ∷ []) };

    /// The connections.
    fn clients(&mut self) -> Clients
        ensures { story self.new ≡ and_then (story self.old) (FoundClients result ∷ []) };

    /// The handlers that run now.
    fn handlers(&mut self, now: u64) -> InRun
        ensures { story self.new ≡ and_then (story self.old) (FoundHandlers now result ∷ []) };

    /// How much there is in a hall.
    fn counts(&mut self, hall: HallNo) -> Counts
        ensures { story self.new ≡ and_then (story self.old) (Counted hall result ∷ []) };

    /// How many volumes were full and handed out.
    fn volumes(&mut self) -> u64
        ensures { story self.new ≡ and_then (story self.old) (FoundVolumes result ∷ []) };

    /// Writes a line of figures to the log.
    fn tell(&mut self, figures: &Figures)
        ensures { story self.new ≡ and_then (story self.old) (Told figures.now ∷ []) };
}
