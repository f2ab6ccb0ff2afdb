//! A launcher of programs that are lists of bytes, with a fuse for one call.
ghost use Rattle.std.specs.Prelude.{◌≡◌, ◌≤◌, None, IfOk};

use crate::fakes::giving::give;
use rk_devices::{Child, DeviceFault, Launcher, StartFault};
use rk_machine::How;
use rk_macro::Command;
use std::alloc::{AllocError, Global};

/// What a program does.
#[derive(Clone, Copy)]
pub struct Program {
    /// Its output, each piece so many times.
    pub says: &'static [(usize, &'static [u8])],
    /// How many bytes of it come at a read, at most.
    pub piece: usize,
    /// Whether it then outputs one more byte for ever.
    pub endless: bool,
    /// How it ends.
    pub ends: How,
}

/// Which call of a device.
#[derive(Clone, Copy, PartialEq, Eq)]
pub enum Call {
    /// The start of a child.
    Start,
    /// A read of its output.
    Read,
    /// A write to its input.
    Write,
    /// The wait for its end.
    Wait,
}

/// The call that fails: of this child, the first one being 1, the call of this number, from 1.
#[derive(Clone, Copy)]
pub struct Fuse(pub usize, pub Call, pub u64);

/// A program as it is played.
#[derive(Drop)]
struct Played {
    /// Its output.
    bytes: Vec<u8>,
    /// How many of these come at a read, at most.
    piece: usize,
    /// Whether bytes go on after these.
    endless: bool,
    /// How it ends once it is waited for.
    ends: How,
}

impl Played {
    /// The program. An `Err` is out of memory.
    fn of(alloc: Global, program: &Program) -> Result<Played, AllocError> {
        Ok(Played {
            bytes: spelled(alloc, program.says)?,
            piece: program.piece,
            endless: program.endless,
            ends: program.ends,
        })
    }

    /// The same once more. An `Err` is out of memory.
    fn copy(&self) -> Result<Played, AllocError> {
        Ok(Played {
            bytes: self.bytes.clone()?,
            piece: self.piece,
            endless: self.endless,
            ends: self.ends,
        })
    }
}

/// Starts the programs, one after the other.
#[derive(Drop)]
pub struct Fake {
    /// Where memory for a copy of a program comes from.
    alloc: Global,
    /// The programs, in the order in which they are started.
    programs: Vec<Played>,
    /// The call that fails, if there is one.
    fuse: Option<Fuse>,
    /// How many were to be started.
    asked: usize,
    /// What the children were written, one after the other, as they came back.
    pub told: Vec<u8>,
    /// The path and the words of each command, a space after each.
    pub words: Vec<u8>,
    /// How many calls failed, those of children that came back too.
    pub failed: u64,
    /// How often the one was read that was read most.
    pub longest: u64,
    /// How many children have not come back.
    pub out: u64,
    /// The most that were out at a time.
    pub deepest: u64,
    /// How often the child was read that came back last.
    reads: u64,
    /// Whether that one was read to the end of its output.
    at_end: bool,
    /// Whether any was waited for while its input was open.
    hasty: bool,
    /// How that one ended: `None` before it was waited for, `None` inside if the wait failed.
    last: Option<Option<How>>,
}

impl Fake {
    /// It starts these programs. An `Err` is out of memory. What is kept of a few programs takes no more of it.
    pub fn new(alloc: Global, programs: &[Program], fuse: Option<Fuse>) -> Result<Fake, AllocError>
        ensures { IfOk result (λ f. f.failed ≡ 0) }
    {
        let told = Vec::with_capacity(alloc, 256)?;
        let words = Vec::with_capacity(alloc, 64)?;
        let mut played = Vec::with_capacity(alloc, programs.len())?;
        for program in programs {
            played.push(Played::of(alloc, program)?)?;
        }
        Ok(Fake {
            alloc,
            programs: played,
            fuse,
            asked: 0,
            told,
            words,
            failed: 0,
            longest: 0,
            out: 0,
            deepest: 0,
            reads: 0,
            at_end: false,
            hasty: false,
            last: None,
        })
    }

    /// The program that is next, and room for what is written to it; none if the start is to fail, or there is no memory.
    fn next(&self) -> Option<(Played, Vec<u8>)> {
        if burns(self.fuse, self.asked, Call::Start, 1) {
            return None;
        }
        let program = self.programs.get(self.asked.checked_sub(1)?)?;
        let program = program.copy().ok()?;
        let told = Vec::with_capacity(self.alloc, 64).ok()?;
        Some((program, told))
    }
}

/// A program that runs.
pub struct Running {
    /// What it outputs, and how it ends.
    program: Played,
    /// How many bytes of its output were read.
    given: usize,
    /// The launcher's fuse, which burns at a call of this child or of another.
    fuse: Option<Fuse>,
    /// Its place among the starts, the first one 1.
    number: usize,
    /// What was written to its input.
    told: Vec<u8>,
    /// How often its input was written to.
    written: u64,
    /// How many of its calls failed.
    failed: u64,
    /// How often its output was read.
    reads: u64,
    /// Whether the last read met the end.
    at_end: bool,
    /// Whether its input was closed.
    closed: bool,
    /// Whether it was waited for while its input was open.
    hasty: bool,
    /// `None` before it was waited for. Then how it ended, or `None` inside if the wait failed.
    waited: Option<Option<How>>,
}

/// Whether the fuse burns at this call.
fn burns(fuse: Option<Fuse>, child: usize, call: Call, nth: u64) -> bool {
    match fuse {
        None => false,
        Some(Fuse(of, burning, number)) => of == child && burning == call && number == nth,
    }
}

/// All bytes that a program says.
fn spelled(alloc: Global, says: &[(usize, &[u8])]) -> Result<Vec<u8>, AllocError> {
    let mut bytes = Vec::new(alloc);
    for (times, said) in says {
        for _ in 0..*times {
            bytes.extend_from_slice(said)?;
        }
    }
    Ok(bytes)
}

impl Child for Running {
    ghost shown = { λ c. record { count = c.failed; reads = c.reads; at_end = c.at_end; story = None; closed = c.closed; waited = c.waited; hasty = c.hasty } };

    fn write(&mut self, bytes: &[u8]) -> Result<(), DeviceFault> {
        self.written = self.written.saturating_add(1);
        let burns = burns(self.fuse, self.number, Call::Write, self.written);
        if burns || self.told.extend_from_slice(bytes).is_err() {
            self.failed = self.failed.saturating_add(1);
            return Err(DeviceFault);
        }
        Ok(())
    }

    fn close_input(&mut self) {
        self.closed = true;
    }

    fn read(&mut self, buf: &mut [u8]) -> Result<usize, DeviceFault> {
        self.reads = self.reads.saturating_add(1);
        self.at_end = false;
        let has_room = !buf.is_empty();
        if burns(self.fuse, self.number, Call::Read, self.reads) {
            self.failed = self.failed.saturating_add(1);
            return Err(DeviceFault);
        }
        let count = if self.given < self.program.bytes.len() {
            let rest = &self.program.bytes[self.given..];
            give(&rest[..rest.len().min(self.program.piece)], buf)
        } else if self.program.endless {
            give(b"a", buf)
        } else {
            0
        };
        self.given = self.given.saturating_add(count);
        self.at_end = count == 0 && has_room;
        Ok(count)
    }

    fn wait(&mut self) -> Result<How, DeviceFault> {
        self.hasty = !self.closed;
        if burns(self.fuse, self.number, Call::Wait, 1) {
            self.failed = self.failed.saturating_add(1);
            self.waited = Some(None);
            return Err(DeviceFault);
        }
        self.waited = Some(Some(self.program.ends));
        Ok(self.program.ends)
    }

    fn failures(&self) -> u64 {
        self.failed
    }
}

impl Launcher for Fake {
    ghost shown = { λ l. record { count = l.failed; longest = l.longest; out = l.out; deepest = l.deepest; reads = l.reads; at_end = l.at_end; last = l.last; story = None; hasty = l.hasty; tried = None } };

    type Started = Running;

    fn start(&mut self, command: &Command) -> Result<Running, StartFault> {
        self.asked = self.asked.saturating_add(1);
        let (Some((program, told)), Some(out)) = (self.next(), self.out.checked_add(1)) else {
            self.failed = self.failed.saturating_add(1);
            return Err(StartFault { os_error: Some(2) });
        };
        let _ = put_words(&mut self.words, command);
        // The call tells the prover that the count is a u64.
        let _failed = self.failures();
        self.out = out;
        self.deepest = self.deepest.max(self.out);
        Ok(Running {
            program,
            given: 0,
            fuse: self.fuse,
            number: self.asked,
            told,
            written: 0,
            failed: 0,
            reads: 0,
            at_end: false,
            closed: false,
            hasty: false,
            waited: None,
        })
    }

    fn back(&mut self, child: Running) {
        let Running {
            program: _,
            given: _,
            fuse: _,
            number: _,
            told,
            written: _,
            failed,
            reads,
            at_end,
            closed: _,
            hasty,
            waited,
        } = child;
        let _ = self.told.extend_from_slice(&told);
        self.failed = self.failed.saturating_add(failed);
        self.longest = self.longest.max(reads);
        self.out = self.out.saturating_sub(1);
        self.reads = reads;
        self.at_end = at_end;
        self.hasty = self.hasty || hasty;
        self.last = waited;
    }

    fn failures(&self) -> u64 {
        self.failed
    }
}

fn put_words(text: &mut Vec<u8>, command: &Command) -> Result<(), AllocError> {
    text.extend_from_slice(command.path.as_bytes())?;
    text.push(b' ')?;
    for word in command.words.as_slice() {
        text.extend_from_slice(word.as_bytes())?;
        text.push(b' ')?;
    }
    Ok(())
}
