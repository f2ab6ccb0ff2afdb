//! A launcher that tells which commands it was to start, and all that passes with its children.
ghost use Rattle.std.specs.Prelude.{◌≡◌, ◌≤◌, [], map, IfOk, Some, true};
ghost use Rattle.rk_live_tests.specs.Telling.{passed, tried};

use crate::fakes::giving::{give, one_more};
use crate::kept::{Passed, Tried};
use rk_conf::Word;
use rk_devices::{Child, DeviceFault, Launcher, StartFault};
use rk_machine::How;
use rk_macro::{Command, Words};
use std::alloc::{AllocError, Global};
use std::process::Abort;

/// The output of a program, and how it ends then.
#[derive(Clone, Copy)]
pub struct Speech {
    /// What it outputs.
    pub bytes: &'static [u8],
    /// How it ends after that.
    pub ends: How,
}

/// Starts the programs, one after the other, and then ones without output. Out of memory for what it keeps ends the process.
#[derive(Drop)]
pub struct Telling<R> {
    /// The host, which ends the process when memory runs out.
    rt: R,
    /// Where memory for what is kept comes from.
    alloc: Global,
    /// The output of each program, and how it ends then.
    programs: Vec<(Vec<u8>, How)>,
    /// How many starts failed.
    pub failed: u64,
    /// The most reads of a child that came back.
    longest: u64,
    /// How many children are out.
    pub out: u64,
    /// The most children that were out at a time.
    deepest: u64,
    /// How often the child was read that came back last.
    reads: u64,
    /// Whether that one was read to the end of its output.
    at_end: bool,
    /// Whether any was waited for while its input was open.
    hasty: bool,
    /// How that one ended: `None` before it was waited for, `None` inside if the wait failed.
    last: Option<Option<How>>,
    /// The commands that were to be started, first things first.
    pub tried: Vec<Tried>,
    /// What has passed with the child that came back last, first things first.
    pub story: Vec<Passed>,
}

impl<R: Copy> Telling<R> {
    /// A launcher that has started nothing. An `Err` is out of memory.
    pub fn new(rt: R, alloc: Global, speeches: &[Speech]) -> Result<Telling<R>, AllocError>
        ensures none { IfOk result (λ l. l.failed ≡ 0) }
        ensures out { IfOk result (λ l. l.out ≡ 0) }
        ensures tried { IfOk result (λ l. l.tried.items ≡ []) }
    {
        let programs = programs_of(alloc, speeches)?;
        Ok(Telling {
            rt,
            alloc,
            programs,
            failed: 0,
            longest: 0,
            out: 0,
            deepest: 0,
            reads: 0,
            at_end: false,
            hasty: false,
            last: None,
            tried: Vec::new(alloc),
            story: Vec::new(alloc),
        })
    }
}

/// The outputs of these programs, copied.
fn programs_of(alloc: Global, speeches: &[Speech]) -> Result<Vec<(Vec<u8>, How)>, AllocError> {
    let mut programs = Vec::new(alloc);
    for speech in speeches {
        let bytes = Vec::from_slice(alloc, speech.bytes)?;
        programs.push((bytes, speech.ends))?;
    }
    Ok(programs)
}

/// A program that runs.
pub struct Speaking<R> {
    /// The host, which ends the process when memory runs out.
    rt: R,
    /// Where memory for the story comes from.
    alloc: Global,
    /// Its output.
    bytes: Vec<u8>,
    /// How much of that was read.
    given: usize,
    /// How it ends after its output.
    ends: How,
    /// How often its output was read.
    reads: u64,
    /// Whether the last read met the end.
    at_end: bool,
    /// Whether its input was closed.
    closed: bool,
    /// Whether it was waited for while its input was open.
    hasty: bool,
    /// `None` before it was waited for. Then how it ended, or `None` inside if the wait failed.
    waited: Option<Option<How>>,
    /// What has passed with it, first things first.
    story: Vec<Passed>,
}

/// The same command once more.
fn copied(alloc: Global, command: &Command) -> Result<Command, AllocError>
    ensures { IfOk result (λ c. c ≡ command.now) }
{
    let path = Word::new(alloc, command.path.as_bytes())?;
    let mut words = Vec::new(alloc);
    for word in command.words.as_slice() {
        let word = Word::new(alloc, word.as_bytes())?;
        words.push(word)?;
    }
    Ok(Command {
        path,
        words: Words::new(words),
        piped: command.piped,
    })
}

impl<R: Abort> Child for Speaking<R> {
    ghost shown = { λ c. record { count = 0; reads = c.reads; at_end = c.at_end; story = Some (map passed c.story.items); closed = c.closed; waited = c.waited; hasty = c.hasty } };

    fn write(&mut self, bytes: &[u8]) -> Result<(), DeviceFault> {
        let said = Vec::from_slice(self.alloc, bytes).expect(&self.rt, "memory");
        self.story
            .push(Passed::Said(said))
            .expect(&self.rt, "memory");
        Ok(())
    }

    fn close_input(&mut self) {
        self.closed = true;
    }

    fn read(&mut self, buf: &mut [u8]) -> Result<usize, DeviceFault> {
        self.reads = one_more(self.reads);
        let has_room = !buf.is_empty();
        let count = if self.given < self.bytes.len() {
            give(&self.bytes[self.given..], buf)
        } else {
            0
        };
        self.given = self.given.saturating_add(count);
        self.at_end = count == 0 && has_room;
        let heard = Vec::from_slice(self.alloc, &buf[..count]).expect(&self.rt, "memory");
        self.story
            .push(Passed::Heard(heard))
            .expect(&self.rt, "memory");
        Ok(count)
    }

    fn wait(&mut self) -> Result<How, DeviceFault> {
        self.hasty = !self.closed;
        self.waited = Some(Some(self.ends));
        Ok(self.ends)
    }

    fn failures(&self) -> u64 {
        0
    }
}

impl<R: Abort + Copy> Launcher for Telling<R> {
    ghost shown = { λ l. record { count = l.failed; longest = l.longest; out = l.out; deepest = l.deepest; reads = l.reads; at_end = l.at_end; last = l.last; story = Some (map passed l.story.items); hasty = l.hasty; tried = Some (map tried l.tried.items) } };

    type Started = Speaking<R>;

    fn start(&mut self, command: &Command) -> Result<Speaking<R>, StartFault> {
        let (bytes, ends) = match self.programs.get(self.tried.len()) {
            Some((bytes, ends)) => (bytes.clone().expect(&self.rt, "memory"), *ends),
            None => (Vec::new(self.alloc), How::Exit(0)),
        };
        let command = copied(self.alloc, command).expect(&self.rt, "memory");
        let out = self.out;
        self.tried
            .push(Tried { out, command })
            .expect(&self.rt, "memory");
        let failed = self.failed;
        let Some(more) = out.checked_add(1) else {
            self.failed = one_more(failed);
            return Err(StartFault { os_error: None });
        };
        self.out = more;
        self.deepest = self.deepest.max(more);
        Ok(Speaking {
            rt: self.rt,
            alloc: self.alloc,
            bytes,
            given: 0,
            ends,
            reads: 0,
            at_end: false,
            closed: false,
            hasty: false,
            waited: None,
            story: Vec::new(self.alloc),
        })
    }

    fn back(&mut self, child: Speaking<R>) {
        let Speaking {
            rt: _,
            alloc: _,
            bytes: _,
            given: _,
            ends: _,
            reads,
            at_end,
            closed: _,
            hasty,
            waited,
            story,
        } = child;
        self.failed = self.failed.saturating_add(0);
        self.longest = self.longest.max(reads);
        self.out = self.out.saturating_sub(1);
        self.reads = reads;
        self.at_end = at_end;
        self.hasty = self.hasty || hasty;
        self.last = waited;
        self.story = story;
    }

    fn failures(&self) -> u64 {
        self.failed
    }
}
