//! The line to a client, and what is done there.
ghost use Rattle.std.specs.Prelude.{◌≡◌, ◌≤◌, [], ◌∷◌, List, Option, IfOk, length};
ghost use Rattle.rk_daemon.specs.Story.{and_then};
ghost use Rattle.rk_daemon.specs.Line.{Act, HasRead, HasWritten, Looked, outcome};

use std::io;

/// A connection to a client, and a clock. It may tell what was done, as a test's does; the system's tells nothing.
pub trait Line {
    /// What was done, first things first, if it tells that.
    ghost story: { Self → Option (List Act) };

    /// Reads bytes to the front of `buf`, for which it waits; how many. 0 is the end of the input.
    fn read(&mut self, buf: &mut [u8]) -> io::Result<usize>
        ensures bound { IfOk result (λ n. n ≤ length buf.old) }
        ensures same { length buf.new ≡ length buf.old }
        ensures story { story self.new ≡ and_then (story self.old) (HasRead (outcome result) ∷ []) };

    /// Writes the first of these bytes, for which it waits; how many.
    fn write(&mut self, bytes: &[u8]) -> io::Result<usize>
        ensures bound { IfOk result (λ n. n ≤ length bytes.now) }
        ensures story { story self.new ≡ and_then (story self.old) (HasWritten bytes.now (outcome result) ∷ []) };

    /// Whole seconds of a clock that only goes on.
    fn seconds(&mut self) -> u64
        ensures { story self.new ≡ and_then (story self.old) (Looked result ∷ []) };
}
