//! The launcher of real programs.
ghost use Rattle.std.specs.Prelude.{◌≡◌, None};
ghost use Rattle.std.specs.IoError.{raw_os_error};
ghost use Rattle.rk_devices.specs.Shown.{LauncherShown, new_launcher};

use crate::counting::one_more;
use crate::making::made;
use crate::program::Program;
use crate::unwaited::Unwaited;
use rk_devices::{Launcher, StartFault};
use rk_machine::How;
use rk_macro::Command;
use std::alloc::Global;
use std::io;
use std::process::{self, Processes};
use std::thread::yield_now;

/// Starts programs, and takes them back.
#[derive(Drop)]
pub struct Programs<'a, R: Processes> {
    /// The host, which starts processes.
    rt: &'a R,
    /// Where memory for words and environments comes from.
    alloc: Global,
    /// The library that handlers preload in the place of libkeyutils, if there is one.
    keyutils: Option<&'a str>,
    /// How many calls failed: starts, and the calls of programs that came back. It stays at the greatest number.
    failed: u64,
    /// The most reads that a program took that came back.
    longest: u64,
    /// How many programs were started and have not come back.
    out: u64,
    /// The most that were out at a time: the depth to which requests of handlers have started handlers.
    deepest: u64,
    /// The reads of the program that came back last.
    reads: u64,
    /// Whether that one was read to the end of its output.
    at_end: bool,
    /// Whether any was waited for while its input was open.
    hasty: bool,
    /// How that one ended: `None` before it was waited for, `None` inside if the wait failed.
    last: Option<Option<How>>,
    /// The programs that came back before they were waited for.
    unwaited: Unwaited<R::Started>,
}

impl<'a, R: Processes> Programs<'a, R> {
    /// A launcher that has started nothing, with the library for plain handlers by which keyutils' calls are the daemon's, if there is one. It takes
    /// no memory.
    pub fn new(rt: &'a R, alloc: Global, keyutils: Option<&'a str>) -> Programs<'a, R>
        ensures { ⟦<Programs<'a, R> as Launcher>⟧.shown result ≡ new_launcher }
    {
        Programs {
            rt,
            alloc,
            keyutils,
            failed: 0,
            longest: 0,
            out: 0,
            deepest: 0,
            reads: 0,
            at_end: false,
            hasty: false,
            last: None,
            unwaited: Unwaited::new(alloc),
        }
    }
}

/// Starts the program of the command. Threads that are ready on this processor run first: while one is, Linux places a new process on another processor,
/// which has to wake up for it. The client is such a thread, which the read of its request wakes for a moment.
fn spawn<R: Processes>(
    rt: &R,
    alloc: Global,
    command: &Command,
    keyutils: Option<&str>,
) -> io::Result<process::Child<R::Started>> {
    let mut made = made(alloc, command, keyutils)?;
    yield_now();
    made.spawn(rt)
}

/// Why a program was not started: the system's error number, if it gave one.
fn refused(error: &io::Error) -> StartFault
    ensures { result.os_error ≡ raw_os_error error.now }
{
    StartFault {
        os_error: error.raw_os_error(),
    }
}

impl<'a, R: Processes> Launcher for Programs<'a, R> {
    ghost shown = { λ l. record { count = l.failed; longest = l.longest; out = l.out; deepest = l.deepest; reads = l.reads; at_end = l.at_end; last = l.last; story = None; hasty = l.hasty; tried = None } };

    type Started = Program<R::Started>;

    fn start(&mut self, command: &Command) -> Result<Program<R::Started>, StartFault> {
        let failed = self.failed;
        self.unwaited.let_ended_go();
        if self.out == u64::MAX {
            self.failed = one_more(failed);
            return Err(StartFault { os_error: None });
        }
        match spawn(self.rt, self.alloc, command, self.keyutils) {
            Ok(child) => {
                self.out += 1;
                self.deepest = self.deepest.max(self.out);
                Ok(Program::new(child))
            }
            Err(error) => {
                self.failed = one_more(failed);
                Err(refused(&error))
            }
        }
    }

    fn back(&mut self, child: Program<R::Started>) {
        let Program {
            child,
            failed,
            reads,
            at_end,
            closed: _,
            hasty,
            waited,
        } = child;
        self.failed = self.failed.saturating_add(failed);
        self.longest = self.longest.max(reads);
        self.out = self.out.saturating_sub(1);
        self.reads = reads;
        self.at_end = at_end;
        self.hasty = self.hasty || hasty;
        self.last = waited;
        if !matches!(waited, Some(Some(_))) {
            self.unwaited.keep(child);
        }
    }

    fn failures(&self) -> u64 {
        self.failed
    }
}
