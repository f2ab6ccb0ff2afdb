//! That each fault of the streams is returned, and that the writer is flushed.
use crate::same::same;
use rk_replay::{ScriptFault, run_script};
use std::alloc::Global;
use std::io;
use std::io::{Read, Write};

/// Gives newlines, one at a time, and then fails or is at its end.
#[derive(Drop)]
struct Newlines {
    /// How many newlines are left.
    left: u32,
    /// Whether it then fails.
    fails: bool,
    /// How often it was read.
    reads: u32,
}

impl Newlines {
    fn new(left: u32, fails: bool) -> Newlines {
        Newlines {
            left,
            fails,
            reads: 0,
        }
    }
}

impl Read for Newlines {
    fn read(&mut self, buf: &mut [u8]) -> io::Result<usize> {
        self.reads = self.reads.saturating_add(1);
        if self.left == 0 && self.fails {
            return Err(io::ErrorKind::Other.into());
        }
        if self.left == 0 || buf.is_empty() {
            return Ok(0);
        }
        self.left -= 1;
        buf[0] = b'\n';
        Ok(1)
    }
}

/// Keeps what it is given until it is flushed, which may fail.
#[derive(Drop)]
struct Keeps {
    /// What was written since the last flush.
    kept: Vec<u8>,
    /// What was flushed.
    passed_on: Vec<u8>,
    /// Whether a flush fails.
    fails: bool,
}

impl Keeps {
    fn new(alloc: Global, fails: bool) -> Keeps {
        Keeps {
            kept: Vec::new(alloc),
            passed_on: Vec::new(alloc),
            fails,
        }
    }
}

impl Write for Keeps {
    fn write(&mut self, buf: &[u8]) -> io::Result<usize> {
        self.kept.write(buf)
    }

    fn flush(&mut self) -> io::Result<()> {
        if self.fails {
            return Err(io::ErrorKind::Other.into());
        }
        self.passed_on.write_all(&self.kept)?;
        self.kept.clear();
        Ok(())
    }
}

/// Takes nothing.
#[derive(Drop)]
struct Refuses {
    /// Whether it was written to.
    seen: bool,
}

impl Write for Refuses {
    fn write(&mut self, _buf: &[u8]) -> io::Result<usize> {
        self.seen = true;
        Err(io::ErrorKind::BrokenPipe.into())
    }

    fn flush(&mut self) -> io::Result<()> {
        Ok(())
    }
}

/// A script of so many newlines: how it ends, how often it was read, and how many bytes were written.
fn run_newlines(alloc: Global, left: u32, fails: bool) -> (Result<(), ScriptFault>, u32, usize) {
    let mut written = Vec::new(alloc);
    let mut reader = Newlines::new(left, fails);
    let ended = run_script(alloc, &mut reader, &mut written);
    (ended, reader.reads, written.len())
}

#[test]
fn a_fault_of_the_reader_is_told(rt: HostRuntime) {
    let (ended, _, written) = run_newlines(rt.alloc(), 3, true);
    same(&rt, (ended, written), (Err(ScriptFault::Read), 0));
}

#[test]
fn a_fault_of_the_writer_is_told(rt: HostRuntime) {
    let mut refuses = Refuses { seen: false };
    let mut script = b"what".as_slice();
    let ended = run_script(rt.alloc(), &mut script, &mut refuses);
    same(&rt, ended, Err(ScriptFault::Write));
    assert!(rt; refuses.seen);
}

/// What is written reaches a writer that keeps it until it is flushed.
#[test]
fn the_writer_is_flushed(rt: HostRuntime) {
    let refused = "fault 2 S1\nconf 1 C1\n";
    for (script, fails, end, kept, passed_on) in [
        ("what", false, Ok(()), "", "fault 1 S1\n"),
        ("what", true, Err(ScriptFault::Write), "fault 1 S1\n", ""),
        ("conf x\nwhat", false, Err(ScriptFault::Conf), "", refused),
        ("conf x\nwhat", true, Err(ScriptFault::Write), refused, ""),
    ] {
        let mut writer = Keeps::new(rt.alloc(), fails);
        let ended = run_script(rt.alloc(), &mut script.as_bytes(), &mut writer);
        same(&rt, (script, ended), (script, end));
        same(
            &rt,
            (writer.kept.as_slice(), writer.passed_on.as_slice()),
            (kept.as_bytes(), passed_on.as_bytes()),
        );
    }
}

/// A script is read to its end where that comes within 1,048,576 reads.
#[test]
fn a_script_without_end_is_given_up(rt: HostRuntime) {
    for (left, end) in [
        (1_048_575, Ok(())),
        (1_048_576, Err(ScriptFault::TurnsUsed)),
    ] {
        let run = run_newlines(rt.alloc(), left, false);
        same(&rt, run, (end, 1_048_576, 0));
    }
}
