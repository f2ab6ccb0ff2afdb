//! The folder of a record, and what is done there.
ghost use Rattle.std.specs.Prelude.{◌≡◌, [], ◌∷◌, List, Option, is_ok, option_map};
ghost use Rattle.std.specs.Result.{result_ok};
ghost use Rattle.rk_daemon.specs.Story.{and_then};
ghost use Rattle.rk_daemon.specs.Folder.{Act, Created, Flushed, Linked, Removed};

use std::io;
use std::io::Write;

/// Who does what is to be done with the files of a record. It may tell what was done, as a test's does; the system's tells nothing.
pub trait Folder {
    /// What was done, first things first, if it tells that.
    ghost story: { Self → Option (List Act) };

    /// A file that is written.
    type File: Write + Drop;

    /// Makes a new file at the path, for nobody but the owner to read. If one is there it is that of another daemon, which writes into this folder too,
    /// and is left to it.
    fn create(&mut self, path: &str) -> io::Result<Self::File>
        ensures { story self.new ≡ and_then (story self.old) (Created path.now (option_map Self.File.contents (result_ok result)) ∷ []) };

    /// Hands all that was written to the system, and closes the file.
    fn flush(&mut self, file: Self::File) -> io::Result<()>
        ensures { story self.new ≡ and_then (story self.old) (Flushed (Self.File.contents file) (is_ok result) ∷ []) };

    /// Gives the file at the first path the second one, too, where no file may stand.
    fn link(&mut self, from: &str, to: &str) -> io::Result<()>
        ensures { story self.new ≡ and_then (story self.old) (Linked from.now to.now (is_ok result) ∷ []) };

    /// Removes the file at the path.
    fn remove(&mut self, path: &str) -> io::Result<()>
        ensures { story self.new ≡ and_then (story self.old) (Removed path.now (is_ok result) ∷ []) };
}
