//! A program that was started.
ghost use Rattle.std.specs.Prelude.{◌≡◌, None, false};
ghost use Rattle.rk_devices.specs.Counts.{Rose, raised};
ghost use Rattle.rk_devices.specs.Shown.{ChildShown};
ghost use Rattle.rk_programs.specs.Ended.{ended_as};

use crate::counting::one_more;
use rk_devices::{Child, DeviceFault};
use rk_machine::How;
use std::io::{Read, Write};
use std::process::{self, ExitStatus, OpenProcess};

/// A program that was started, with its two pipes. It can't be dropped: its launcher takes it back.
pub struct Program<P: OpenProcess> {
    /// The process, with its pipes as far as they are open.
    pub(crate) child: process::Child<P>,
    /// How many calls of the system failed; it stays at the greatest number.
    pub(crate) failed: u64,
    /// How often its output was read, whether that failed or not.
    pub(crate) reads: u64,
    /// Whether the last read met the end of its output.
    pub(crate) at_end: bool,
    /// Whether its input was closed, so that it can meet its end.
    pub(crate) closed: bool,
    /// Whether it was waited for while its input was open: such a wait need not end.
    pub(crate) hasty: bool,
    /// `None` before it was waited for. Then how it ended, or `None` inside if the wait failed.
    pub(crate) waited: Option<Option<How>>,
}

impl<P: OpenProcess> Program<P> {
    /// What was just started.
    pub(crate) fn new(child: process::Child<P>) -> Program<P>
        ensures counts { (result.failed ≡ 0) × (result.reads ≡ 0) }
        ensures ends { (result.at_end ≡ false) × (result.closed ≡ false) × (result.waited ≡ None) × (result.hasty ≡ false) }
    {
        Program {
            child,
            failed: 0,
            reads: 0,
            at_end: false,
            closed: false,
            hasty: false,
            waited: None,
        }
    }

    /// Counts a failure.
    fn fault(&mut self) -> DeviceFault
        ensures count { self.new.failed ≡ raised self.old.failed }
        ensures rose { Rose self.old.failed self.new.failed }
        ensures reads { self.new.reads ≡ self.old.reads }
        ensures at_end { (self.new.at_end ≡ self.old.at_end) × (self.new.closed ≡ self.old.closed) }
        ensures waited { (self.new.waited ≡ self.old.waited) × (self.new.hasty ≡ self.old.hasty) }
    {
        self.failed = one_more(self.failed);
        DeviceFault
    }
}

/// How a program has ended: by its status, or by a signal (`waitpid(2)`).
fn ending(status: ExitStatus) -> How
    ensures { result ≡ ended_as status }
{
    match status.code() {
        Some(code) => How::Exit(u8::try_from(code).unwrap_or(u8::MAX)),
        None => How::Signal,
    }
}

impl<P: OpenProcess> Child for Program<P> {
    ghost shown = { λ p. record { count = p.failed; reads = p.reads; at_end = p.at_end; story = None; closed = p.closed; waited = p.waited; hasty = p.hasty } };

    fn write(&mut self, bytes: &[u8]) -> Result<(), DeviceFault> {
        let Some(input) = &mut self.child.stdin else {
            return Err(self.fault());
        };
        match input.write_all(bytes) {
            Ok(()) => Ok(()),
            Err(_) => Err(self.fault()),
        }
    }

    fn close_input(&mut self) {
        drop(self.child.stdin.take());
        self.closed = true;
    }

    fn read(&mut self, buf: &mut [u8]) -> Result<usize, DeviceFault> {
        self.reads = one_more(self.reads);
        self.at_end = false;
        let has_room = !buf.is_empty();
        let Some(output) = &mut self.child.stdout else {
            self.at_end = has_room;
            return Ok(0);
        };
        match output.read(buf) {
            Ok(count) => {
                self.at_end = count == 0 && has_room;
                Ok(count)
            }
            Err(_) => Err(self.fault()),
        }
    }

    fn wait(&mut self) -> Result<How, DeviceFault> {
        self.hasty = !self.closed;
        match self.child.wait() {
            Ok(status) => {
                let how = ending(status);
                self.waited = Some(Some(how));
                Ok(how)
            }
            Err(_) => {
                self.waited = Some(None);
                Err(self.fault())
            }
        }
    }

    fn failures(&self) -> u64 {
        self.failed
    }
}
