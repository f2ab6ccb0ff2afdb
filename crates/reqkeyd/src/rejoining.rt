//! `rejoin`: how much of a record files are, written.
ghost use Rattle.std.specs.Prelude.{◌≡◌, ◌≤◌, map, string_bytes};
ghost use Rattle.reqkeyd.specs.Outcome.{HasTold};
ghost use Rattle.reqkeyd.specs.Rejoined.{HasRejoined};

use crate::run::{FAILED, no_memory, tell};
use rk_rejoin::{Disk, Total, rejoin_files};
use std::alloc::Global;
use std::io::Write;

/// Has `disk` read the files, each once, and writes how much of each hall's record they are. The status is 1, with a line on `errors`, where they are no
/// record, out of memory, or where `writer` fails.
#[inline(never)]
pub fn rejoin<D: Disk, W: Write, E: Write>(
    alloc: Global,
    disk: &mut D,
    files: &[String],
    writer: &mut W,
    errors: &mut E,
) -> u8
    ensures rejoined { result ≡ 0
        → HasRejoined (map string_bytes files.now) (D.story disk.old) (D.story disk.new) (W.contents writer.old) (W.contents writer.new) }
    ensures quiet { result ≡ 0 → errors.new ≡ errors.old }
    ensures status { result ≤ 1 }
{
    match rejoin_files(alloc, disk, files) {
        Ok(total) => write_total(alloc, &total, writer, errors),
        Err(fault) => {
            let _ = writeln!(errors, "reqkeyd: {fault}");
            FAILED
        }
    }
}

/// Writes how much of each hall's record there is.
fn write_total<W: Write, E: Write>(
    alloc: Global,
    total: &Total,
    writer: &mut W,
    errors: &mut E,
) -> u8
    ensures told { result ≡ 0 → HasTold (W.contents writer.old) (W.contents writer.new) }
    ensures quiet { result ≡ 0 → errors.new ≡ errors.old }
    ensures status { result ≤ 1 }
{
    let Ok(text) = format!(in alloc; "{total}") else {
        return no_memory(errors);
    };
    if tell(text.as_bytes(), writer) == 0 {
        return 0;
    }
    let _ = errors.write_all(b"reqkeyd: output\n");
    FAILED
}
