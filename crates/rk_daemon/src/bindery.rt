//! Where the volumes of one hall are written.
ghost use Rattle.std.specs.Prelude.{◌≡◌, [], ◌∷◌, List, Option};
ghost use Rattle.std.specs.Result.{result_ok};
ghost use Rattle.rk_daemon.specs.Binding.{Act, Awaited, Written, Settled};
ghost use Rattle.rk_daemon.specs.Story.{and_then};

use rk_volumes::{Head, Seal, Sum};
use std::io;

/// Where a volume is written behind those of its hall that came before it, of which each says the sum of the one before; several threads hand them out. It may
/// tell what was done, as a test's does; the system's tells nothing.
pub trait Bindery {
    /// What was done, first things first, if it tells that.
    ghost story: { Self → Option (List Act) };

    /// The sum that the volume with this index has to say of the one before it. It waits until that one is done with.
    fn before(&mut self, index: u64) -> Sum
        ensures { story self.new ≡ and_then (story self.old) (Awaited index result ∷ []) };

    /// Writes the volume with this head, in its seal, and gives its sum.
    fn write(&mut self, seal: &Seal, head: &Head) -> io::Result<Sum>
        ensures { story self.new ≡ and_then (story self.old) (Written seal.now head.now (result_ok result) ∷ []) };

    /// The volume with this index is done with, and the next one has to say this sum.
    fn settle(&mut self, index: u64, sum: Sum)
        ensures { story self.new ≡ and_then (story self.old) (Settled index sum ∷ []) };
}
