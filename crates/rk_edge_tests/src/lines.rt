//! A line to a client that tells what is done there, and how it is read and written to.
ghost use Rattle.std.specs.Prelude.{◌≡◌, ◌≤◌, codes, [], ◌∷◌, ◌++◌, IfOk, Some, map, if◌then◌else◌};
ghost use Rattle.rk_daemon.specs.Hearing.{Hears, Sends};
ghost use Rattle.rk_daemon.specs.Line.{outcome};
ghost use Rattle.rk_daemon.specs.Lull.{fresh, heard};
ghost use Rattle.rk_edge_tests.specs.Done.{on_line};

use crate::done::OnLine;
use rk_daemon::{Line, Lull, hear, send};
use std::alloc::Global;
use std::io;
use std::io::ErrorKind;
use std::process::Abort;
use std::sync::Wait;

/// A line that tells what is done there. What its calls come to is given, and after that nothing does: they wait for too long. Each look at its clock finds
/// it so many seconds later. Out of memory for what it keeps ends the process.
#[derive(Drop)]
struct Telling<'a, R> {
    rt: &'a R,
    alloc: Global,
    comes: &'a [Result<usize, ErrorKind>],
    step: u64,
    now: u64,
    /// What was done, first things first.
    done: Vec<OnLine>,
}

impl<'a, R: Abort> Telling<'a, R> {
    /// A line on which nothing was done. It takes no memory.
    fn new(
        rt: &'a R,
        alloc: Global,
        comes: &'a [Result<usize, ErrorKind>],
        step: u64,
    ) -> Telling<'a, R>
        ensures { result.done.items ≡ [] }
    {
        Telling {
            rt,
            alloc,
            comes,
            step,
            now: 0,
            done: Vec::new(alloc),
        }
    }

    /// What the next call of so many bytes comes to.
    fn next(&mut self, room: usize) -> Result<usize, ErrorKind>
        ensures kept { self.new.done.items ≡ self.old.done.items }
        ensures bound { IfOk result (λ n. n ≤ room) }
    {
        let Some((first, others)) = self.comes.split_first() else {
            return Err(ErrorKind::WouldBlock);
        };
        let first = *first;
        self.comes = others;
        match first {
            Ok(count) => Ok(count.min(room)),
            Err(kind) => Err(kind),
        }
    }

    /// Keeps what was done.
    fn keep(&mut self, done: OnLine)
        ensures { self.new.done.items ≡ self.old.done.items ++ done ∷ [] }
    {
        self.done.push(done).expect(self.rt, "memory");
    }
}

/// What a call came to, as an I/O result.
fn told(came: Result<usize, ErrorKind>) -> io::Result<usize>
    ensures { outcome result ≡ came }
{
    match came {
        Ok(count) => Ok(count),
        Err(kind) => Err(io::Error::from(kind)),
    }
}

impl<'a, R: Abort> Line for Telling<'a, R> {
    ghost story = { λ line. Some (map on_line line.done.items) };

    fn read(&mut self, buf: &mut [u8]) -> io::Result<usize> {
        let came = self.next(buf.len());
        self.keep(OnLine::Read(came));
        told(came)
    }

    fn write(&mut self, bytes: &[u8]) -> io::Result<usize> {
        let came = self.next(bytes.len());
        let offered = Vec::from_slice(self.alloc, bytes).expect(self.rt, "memory");
        self.keep(OnLine::Written(offered, came));
        told(came)
    }

    fn seconds(&mut self) -> u64 {
        let now = self.now.saturating_add(self.step);
        self.now = now;
        self.keep(OnLine::Looked(now));
        now
    }
}

/// Reads on a line on which nothing was done, after a part of a frame or not: all that is done there is one read, by these definitions. What was done, what
/// that came to, and for how long the client is waited for then.
fn read<R: Abort + Wait>(
    rt: &R,
    alloc: Global,
    comes: &[Result<usize, ErrorKind>],
    step: u64,
    is_amid: bool,
) -> (Vec<OnLine>, io::Result<usize>, Lull)
    ensures { Hears (if is_amid then heard (fresh 60) else fresh 60) (outcome result.1) result.2 (map on_line result.0.items) }
{
    let mut line = Telling::new(rt, alloc, comes, step);
    let mut lull = Lull::new(60);
    if is_amid {
        lull.hear();
    }
    let mut buf = [0; 8];
    let came = hear(rt, &mut line, &mut lull, &mut buf);
    (line.done, came, lull)
}

/// Sends four bytes on a line on which nothing was done: all that is done there sends them, by these definitions.
fn sent<R: Abort + Wait>(
    rt: &R,
    alloc: Global,
    comes: &[Result<usize, ErrorKind>],
    step: u64,
) -> (Vec<OnLine>, io::Result<()>)
    ensures { Sends (codes "abcd") (fresh 60) (outcome result.1) (map on_line result.0.items) }
{
    let mut line = Telling::new(rt, alloc, comes, step);
    let came = send(rt, &mut line, 60, "abcd".as_bytes());
    (line.done, came)
}

/// What comes, how many seconds go by at each look at the clock, whether a part of a frame has come before, what is done, and what that comes to.
type Reading = (
    &'static [Result<usize, ErrorKind>],
    u64,
    bool,
    &'static str,
    Result<usize, ErrorKind>,
);

const INTERRUPTED: Result<usize, ErrorKind> = Err(ErrorKind::Interrupted);

const READINGS: &[Reading] = &[
    (&[Ok(5)], 1, false, "[Read(Ok(5))]", Ok(5)),
    (&[Ok(0)], 1, false, "[Read(Ok(0))]", Ok(0)),
    (
        &[INTERRUPTED, INTERRUPTED, Ok(8)],
        30,
        false,
        "[Read(Err(Interrupted)), Looked(30), Read(Err(Interrupted)), Looked(60), Read(Ok(8))]",
        Ok(8),
    ),
    (
        &[INTERRUPTED, INTERRUPTED, INTERRUPTED, Ok(8)],
        61,
        false,
        "[Read(Err(Interrupted)), Looked(61), Read(Err(Interrupted)), Looked(122)]",
        Err(ErrorKind::WouldBlock),
    ),
    (
        &[Err(ErrorKind::ConnectionReset), Ok(8)],
        1,
        false,
        "[Read(Err(ConnectionReset))]",
        Err(ErrorKind::ConnectionReset),
    ),
    (
        &[],
        1,
        false,
        "[Read(Err(WouldBlock))]",
        Err(ErrorKind::WouldBlock),
    ),
    (&[Ok(3)], 7, true, "[Looked(7), Read(Ok(3))]", Ok(3)),
];

#[test]
fn interrupted_reads_are_made_again(rt: HostRuntime) {
    for (comes, step, is_amid, wanted, outcome) in READINGS {
        let (done, came, _) = read(&rt, rt.alloc(), comes, *step, *is_amid);
        let done = format!(in rt.alloc(); "{done:?}").expect(&rt, "memory");
        assert_eq!(rt; done.as_str(), *wanted);
        assert_eq!(rt; came.map_err(|error| error.kind()), *outcome);
    }
}

#[test]
fn a_frame_has_its_time(rt: HostRuntime) {
    let mut line = Telling::new(&rt, rt.alloc(), &[Ok(1); 9], 21);
    let mut lull = Lull::new(60);
    let mut buf = [0; 8];
    for count in 0..9 {
        let came = hear(&rt, &mut line, &mut lull, &mut buf);
        assert_eq!(rt; came.is_ok(), count < 4);
        if came.is_err() {
            break;
        }
    }
    lull.end();
    assert_eq!(rt; hear(&rt, &mut line, &mut lull, &mut buf).is_ok(), true);
}

/// What comes, how many seconds go by at each look at the clock, how many bytes are offered each time, and what that comes to.
type Sending = (
    &'static [Result<usize, ErrorKind>],
    u64,
    &'static [usize],
    Result<(), ErrorKind>,
);

const SENDINGS: &[Sending] = &[
    (&[Ok(4)], 1, &[4], Ok(())),
    (
        &[Ok(1), INTERRUPTED, Ok(2), Ok(1)],
        20,
        &[4, 3, 3, 1],
        Ok(()),
    ),
    (
        &[Ok(1), INTERRUPTED, Ok(2), Ok(1)],
        61,
        &[4, 3],
        Err(ErrorKind::WouldBlock),
    ),
    (
        &[Ok(1), Err(ErrorKind::BrokenPipe)],
        1,
        &[4, 3],
        Err(ErrorKind::BrokenPipe),
    ),
    (&[Ok(0)], 1, &[4], Err(ErrorKind::WriteZero)),
    (&[], 1, &[4], Err(ErrorKind::WouldBlock)),
];

#[test]
fn replies_are_sent_whole(rt: HostRuntime) {
    for (comes, step, wanted, outcome) in SENDINGS {
        let (done, came) = sent(&rt, rt.alloc(), comes, *step);
        assert_eq!(rt; came.map_err(|error| error.kind()), *outcome);
        let mut offered = done.iter().filter_map(|done| match done {
            OnLine::Written(bytes, _) => Some(bytes.len()),
            _ => None,
        });
        for count in *wanted {
            assert_eq!(rt; offered.next(), Some(*count));
        }
        assert_eq!(rt; offered.next(), None);
    }
}
