//! Bytes of a file that stand for an argument, so that they need not stand in the list of processes.
ghost use Rattle.std.specs.Prelude.{◌≡◌, ◌≢◌, codes, IfOk};
ghost use Rattle.rk_ctl.specs.Sources.{IsStart};

use std::alloc::Global;
use std::fs::{File, Files};
use std::io;
use std::io::{ErrorKind, Read};
use thiserror::Error;

/// How much of a file is read: more than any argument may have.
const MOST: u64 = 32_768;

/// Why there are no bytes.
#[derive(Clone, Copy, Debug, Error)]
pub enum SourceFault {
    /// The file can't be opened or read, as the system says.
    #[error("the file can't be read: {0}")]
    Lost(io::Error),
    /// There was no memory for its bytes.
    #[error("out of memory")]
    NoMemory,
}

/// The bytes of the file, or for `-` what is left to read of `reader`; of more than any argument may have, so many that they are too many. For
/// another path `reader` is not read.
pub fn read_source<R: Files, I: Read>(
    rt: &R,
    alloc: Global,
    path: &str,
    reader: &mut I,
) -> Result<Vec<u8>, SourceFault>
    ensures another { path.now ≢ codes "-" → reader.new ≡ reader.old }
    ensures start { path.now ≡ codes "-" → IfOk result (λ bytes. IsStart bytes.items (I.remaining reader.old)) }
{
    if path == "-" {
        return read_start(alloc, reader);
    }
    match File::open(rt, path) {
        Ok(mut file) => read_start(alloc, &mut file),
        Err(error) => Err(SourceFault::Lost(error)),
    }
}

/// The first bytes that are left to read.
fn read_start<I: Read>(alloc: Global, reader: &mut I) -> Result<Vec<u8>, SourceFault>
    ensures { IfOk result (λ bytes. IsStart bytes.items (I.remaining reader.old)) }
{
    let mut bytes = Vec::new(alloc);
    match Read::take(reader, MOST).read_to_end(&mut bytes) {
        Ok(_) => Ok(bytes),
        Err(error) if error.kind() == ErrorKind::OutOfMemory => Err(SourceFault::NoMemory),
        Err(error) => Err(SourceFault::Lost(error)),
    }
}
