//! Whether files are a record.
ghost use Rattle.std.specs.Prelude.{map, string_bytes, IfOk, IfErr};
ghost use Rattle.rk_rejoin.specs.Disk.{Reads};
ghost use Rattle.rk_rejoin.specs.Rejoined.{AreRejoined};
ghost use Rattle.rk_rejoin.specs.Unread.{AreRefused};

use crate::disk::Disk;
use crate::files_fault::FilesFault;
use crate::judging::judge;
use crate::part::Total;
use crate::reading::volumes_of;
use std::alloc::Global;

/// What the files at these paths are, which may stand in any order. The disk reads each of them once, in that order, and nothing else. `Ok` says how much of
/// each hall's record their volumes are, as [`judge`] does. A [`FilesFault`] names the first file that can't be read or is no volume, and nothing is read
/// after it; or it is what `judge` says of the volumes of all files. Out of memory may come at any of these.
pub fn rejoin_files<'a, D: Disk>(
    alloc: Global,
    disk: &mut D,
    files: &'a [String],
) -> Result<Total, FilesFault<'a>>
    ensures rejoined { IfOk result (λ total. Reads (AreRejoined (map string_bytes files.now) total) (D.story disk.old) (D.story disk.new)) }
    ensures refused { IfErr result (λ f. Reads (AreRefused (map string_bytes files.now) f) (D.story disk.old) (D.story disk.new)) }
{
    let volumes = volumes_of(alloc, disk, files)?;
    let total = judge(alloc, &volumes)?;
    Ok(total)
}
