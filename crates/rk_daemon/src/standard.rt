//! The places of the standard streams, and what is done there.
ghost use Rattle.std.specs.Prelude.{◌≡◌, [], ◌∷◌, List, Option, is_ok};
ghost use Rattle.rk_daemon.specs.Story.{and_then};
ghost use Rattle.rk_daemon.specs.Streams.{Act, Looked, Opened};

use std::io;

/// A standard stream.
#[derive(Clone, Copy, Debug, PartialEq, Eq)]
pub enum Stream {
    /// Standard input.
    Input,
    /// Standard output.
    Output,
    /// Standard error.
    Errors,
}

impl Stream {
    ghost use Rattle.std.specs.Prelude.{◌≡◌};
    ghost use Rattle.rk_daemon.specs.Streams.{descriptor_of};

    /// Its descriptor (stdin(3)).
    pub fn descriptor(self) -> i32
        ensures { result ≡ descriptor_of self }
    {
        match self {
            Stream::Input => 0,
            Stream::Output => 1,
            Stream::Errors => 2,
        }
    }
}

/// Who has the descriptors of the standard streams. It may tell what was done, as a test's does; the system's tells nothing.
pub trait Standard {
    /// What was done, first things first, if it tells that.
    ghost story: { Self → Option (List Act) };

    /// What is open in the place of a stream.
    type File: Drop;

    /// Whether a stream is closed.
    fn is_closed(&mut self, stream: Stream) -> bool
        ensures { story self.new ≡ and_then (story self.old) (Looked stream result ∷ []) };

    /// Opens, in the lowest place that is free, what is read as an empty file and drops what is written.
    fn open(&mut self) -> io::Result<Self::File>
        ensures { story self.new ≡ and_then (story self.old) (Opened (is_ok result) ∷ []) };
}
