//! The volumes of files, read and put in order.
ghost use Rattle.std.specs.Prelude.{◌≡◌, map, string_bytes, IfOk, IfErr};
ghost use Rattle.rk_rejoin.specs.Disk.{Reads, ReadsOne};
ghost use Rattle.rk_rejoin.specs.Read.{AreOfFiles, AreRead, IsVolumeIn, rank_of};
ghost use Rattle.rk_rejoin.specs.Unread.{AreUnread, IsNoVolumeIn};

use crate::disk::{Disk, ReadFault};
use crate::files_fault::FilesFault;
use rk_volumes::{Fault, Stored};
use std::alloc::Global;

/// The volumes of the files, by rising hall, and in each hall by rising index.
pub(crate) fn volumes_of<'a, D: Disk>(
    alloc: Global,
    disk: &mut D,
    files: &'a [String],
) -> Result<Vec<Stored>, FilesFault<'a>>
    ensures read { IfOk result (λ vs. Reads (AreOfFiles (map string_bytes files.now) vs.items) (D.story disk.old) (D.story disk.new)) }
    ensures refused { IfErr result (λ f. Reads (AreUnread (map string_bytes files.now) f) (D.story disk.old) (D.story disk.new)) }
{
    let mut volumes = read_all(alloc, disk, files)?;
    let Ok(()) = volumes.sort_by_key(rank_of) else {
        return Err(FilesFault::NoMemory);
    };
    Ok(volumes)
}

/// Where a volume stands among others: its hall, and its index there.
fn rank_of(volume: &Stored) -> (u8, u64)
    ensures { result ≡ rank_of volume.now }
{
    (volume.head.hall.number(), volume.head.index)
}

/// The volumes of the files, in their order. Nothing is read after a file that isn't a volume.
fn read_all<'a, D: Disk>(
    alloc: Global,
    disk: &mut D,
    files: &'a [String],
) -> Result<Vec<Stored>, FilesFault<'a>>
    ensures read { IfOk result (λ vs. Reads (AreRead (map string_bytes files.now) vs.items) (D.story disk.old) (D.story disk.new)) }
    ensures refused { IfErr result (λ f. Reads (AreUnread (map string_bytes files.now) f) (D.story disk.old) (D.story disk.new)) }
{
    let mut volumes = Vec::new(alloc);
    for file in files {
        let Ok(()) = volumes.push(read(alloc, disk, file.as_str())?) else {
            return Err(FilesFault::NoMemory);
        };
    }
    Ok(volumes)
}

/// The volume of a file.
fn read<'a, D: Disk>(alloc: Global, disk: &mut D, file: &'a str) -> Result<Stored, FilesFault<'a>>
    ensures read { IfOk result (λ v. ReadsOne file.now (λ reading. IsVolumeIn reading v) (D.story disk.old) (D.story disk.new)) }
    ensures refused { IfErr result (λ f. ReadsOne file.now (λ reading. IsNoVolumeIn reading f) (D.story disk.old) (D.story disk.new)) }
{
    let bytes = match disk.read(file) {
        Ok(bytes) => bytes,
        Err(ReadFault::Unreadable) => return Err(FilesFault::Unreadable(file)),
        Err(ReadFault::NoMemory) => return Err(FilesFault::NoMemory),
    };
    match Stored::read(alloc, &bytes) {
        Ok(volume) => Ok(volume),
        Err(Fault::NoMemory) => Err(FilesFault::NoMemory),
        Err(fault) => Err(FilesFault::NoVolume(file, fault)),
    }
}
