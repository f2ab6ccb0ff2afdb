//! That a file is one volume.
ghost use Rattle.rk_volumes.specs.Format.{HaveOneReading};

/// No two volumes are the same file, and none is the front of another one's: so a file that is cut, or has a byte too many, is no volume. It does nothing
/// when it runs: a proof calls it for what it ensures.
pub fn volumes_have_one_reading()
    ensures { HaveOneReading }
{}
