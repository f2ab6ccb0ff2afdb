//! Standard streams that tell what is done in their places, and how these are taken.
ghost use Rattle.std.specs.Prelude.{◌≡◌, [], ◌∷◌, ◌++◌, is_ok, map, Some};
ghost use Rattle.rk_daemon.specs.Streams.{FillsAll};
ghost use Rattle.rk_edge_tests.specs.Done.{in_place};

use crate::done::InPlace;
use rk_daemon::{Standard, Stream, fill};
use std::alloc::Global;
use std::io;
use std::io::ErrorKind;
use std::process::Abort;

/// Standard streams that tell what is done in their places. Which of them are closed is given, and which file that is opened fails, the first one being 0. Out
/// of memory for what it keeps ends the process.
#[derive(Drop)]
struct Telling<'a, R> {
    rt: &'a R,
    closed: &'a [Stream],
    opened: u32,
    fails: u32,
    /// What was done, first things first.
    done: Vec<InPlace>,
}

impl<'a, R: Abort> Telling<'a, R> {
    /// Keeps what was done.
    fn keep(&mut self, done: InPlace)
        ensures { self.new.done.items ≡ self.old.done.items ++ done ∷ [] }
    {
        self.done.push(done).expect(self.rt, "memory");
    }
}

impl<'a, R: Abort> Standard for Telling<'a, R> {
    ghost story = { λ streams. Some (map in_place streams.done.items) };

    type File = ();

    fn is_closed(&mut self, stream: Stream) -> bool {
        let is_closed = self.closed.contains(&stream);
        self.keep(InPlace::Looked(stream, is_closed));
        is_closed
    }

    fn open(&mut self) -> io::Result<()> {
        let is_done = self.opened != self.fails;
        self.opened = self.opened.saturating_add(1);
        self.keep(InPlace::Opened(is_done));
        if is_done {
            Ok(())
        } else {
            Err(io::Error::from(ErrorKind::PermissionDenied))
        }
    }
}

/// Takes the places of streams in which nothing was done: all that is done there takes them.
fn filled<R: Abort>(rt: &R, alloc: Global, closed: &[Stream], fails: u32) -> (Vec<InPlace>, bool)
    ensures { FillsAll result.1 (map in_place result.0.items) }
{
    let mut streams = Telling {
        rt,
        closed,
        opened: 0,
        fails,
        done: Vec::new(alloc),
    };
    let is_done = fill(&mut streams).is_ok();
    (streams.done, is_done)
}

/// Which streams are closed, which file fails, what is done, and whether all are taken.
const FILLINGS: &[(&[Stream], u32, &[InPlace], bool)] = &[
    (
        &[],
        9,
        &[
            InPlace::Looked(Stream::Input, false),
            InPlace::Looked(Stream::Output, false),
            InPlace::Looked(Stream::Errors, false),
        ],
        true,
    ),
    (
        &[Stream::Input, Stream::Errors],
        9,
        &[
            InPlace::Looked(Stream::Input, true),
            InPlace::Opened(true),
            InPlace::Looked(Stream::Output, false),
            InPlace::Looked(Stream::Errors, true),
            InPlace::Opened(true),
        ],
        true,
    ),
    (
        &[Stream::Input, Stream::Output, Stream::Errors],
        1,
        &[
            InPlace::Looked(Stream::Input, true),
            InPlace::Opened(true),
            InPlace::Looked(Stream::Output, true),
            InPlace::Opened(false),
        ],
        false,
    ),
];

#[test]
fn closed_streams_are_taken(rt: HostRuntime) {
    for (closed, fails, wanted, are_taken) in FILLINGS {
        let (done, is_done) = filled(&rt, rt.alloc(), closed, *fails);
        assert_eq!(rt; done.as_slice(), *wanted);
        assert_eq!(rt; is_done, *are_taken);
    }
}
