//! The folder into which volumes are written.
ghost use Rattle.std.specs.Prelude.{◌≡◌, IfOk, string_bytes};
ghost use Rattle.std.specs.Result.{result_ok};
ghost use Rattle.rk_daemon.specs.Keeping.{Fills, Keeps, Names, is_of_record, part_path, volume_path};
ghost use Rattle.rk_daemon.specs.Story.{Does};

use crate::folder::Folder;
use crate::system_folder::SystemFolder;
use rk_hall::Recorded;
use rk_volumes::{Head, Seal, Sum};
use std::alloc::{AllocError, Global};
use std::fs::Files;
use std::io::BufWriter;
use std::{fs, io};

/// How the name of each volume begins.
const PREFIX: &str = "hall-";

/// How the name of one begins that is being written. It is hidden, so that who lists volumes does not take a part for one, which a daemon leaves that is
/// killed.
const PART: &str = ".hall-";

/// Whether a record may be written into a folder: it is there, and no file in it has a name that begins as those of volumes and their parts do.
// (It is not inlined: reading a folder takes some 40 KB of the stack, which a daemon that writes no record would have in memory.)
#[inline(never)]
pub fn is_free<R: Files + AllocGlobal + Clone + Drop>(rt: &R, folder: &str) -> io::Result<bool> {
    for entry in fs::read_dir(rt, folder)? {
        let entry = entry?;
        if is_of_record(entry.file_name()) {
            return Ok(false);
        }
    }
    Ok(true)
}

/// Whether a file of this name is a volume or a part of one.
fn is_of_record(name: &str) -> bool
    ensures { result ≡ is_of_record name.now }
{
    name.starts_with(PREFIX) || name.starts_with(PART)
}

/// What writes volumes into a folder: whatever has [`Files`]. It has no types of its own, as those have, so that threads can be handed it.
pub trait Keeper {
    /// Writes a volume in its seal into the folder, as [`keep`] does.
    fn keep(
        &self,
        alloc: Global,
        folder: &str,
        seal: &Seal,
        head: &Head,
        steps: &[Recorded],
    ) -> io::Result<Sum>;
}

impl<R: Files> Keeper for R {
    fn keep(
        &self,
        alloc: Global,
        folder: &str,
        seal: &Seal,
        head: &Head,
        steps: &[Recorded],
    ) -> io::Result<Sum> {
        keep(
            alloc,
            &mut SystemFolder::new(self),
            folder,
            seal,
            head,
            steps,
        )
    }
}

/// Writes a volume in its seal into the folder at this path, as `hall-2-volume-000001`, for nobody but the owner to read, and gives its sum. It is written
/// under another name at first, so that a volume under its name is a whole one; if that fails, nothing of it stays. No file that is there is replaced,
/// under either name. It is not waited for that the disk has it.
pub fn keep<F: Folder>(
    alloc: Global,
    files: &mut F,
    folder: &str,
    seal: &Seal,
    head: &Head,
    steps: &[Recorded],
) -> io::Result<Sum>
    ensures { Does (Keeps folder.now head.now steps.now seal.now (result_ok result)) (F.story files.old) (F.story files.new) }
{
    let volume = volume_path(alloc, folder, head)?;
    let unfinished = part_path(alloc, folder, head)?;
    let (path, part) = (volume.as_str(), unfinished.as_str());
    let file = files.create(part)?;
    let sum = filled(alloc, files, file, seal, head, steps);
    let kept = named(files, part, path, sum);
    let _ = files.remove(part);
    kept
}

/// The path of a volume in a folder.
fn volume_path(alloc: Global, folder: &str, head: &Head) -> Result<String, AllocError>
    ensures { IfOk result (λ path. string_bytes path ≡ volume_path folder.now head.now) }
{
    let (hall, index) = (head.hall.number(), head.index);
    format!(in alloc; "{folder}/{PREFIX}{hall}-volume-{index:06}")
}

/// The path under which it is written.
fn part_path(alloc: Global, folder: &str, head: &Head) -> Result<String, AllocError>
    ensures { IfOk result (λ path. string_bytes path ≡ part_path folder.now head.now) }
{
    let (hall, index) = (head.hall.number(), head.index);
    format!(in alloc; "{folder}/{PART}{hall}-volume-{index:06}.part")
}

/// Gives the file that was filled, unless it was not, the path of the volume.
fn named<F: Folder>(
    files: &mut F,
    part: &str,
    path: &str,
    filled: io::Result<Sum>,
) -> io::Result<Sum>
    ensures { Does (Names part.now path.now (result_ok filled) (result_ok result)) (F.story files.old) (F.story files.new) }
{
    let sum = filled?;
    files.link(part, path)?;
    Ok(sum)
}

/// Writes a volume in its seal into a new file, hands all of it to the system, and gives its sum.
fn filled<F: Folder>(
    alloc: Global,
    files: &mut F,
    file: F::File,
    seal: &Seal,
    head: &Head,
    steps: &[Recorded],
) -> io::Result<Sum>
    ensures { Does (Fills head.now steps.now seal.now (F.File.contents file) (result_ok result)) (F.story files.old) (F.story files.new) }
{
    let mut file = BufWriter::new(alloc, file)?;
    let sum = seal.store(alloc, head, steps, &mut file)?;
    let file = match file.into_inner() {
        Ok(file) => file,
        Err(error) => return Err(error.into_error()),
    };
    files.flush(file)?;
    Ok(sum)
}
