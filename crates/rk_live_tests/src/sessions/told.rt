//! Sessions over a wire that tells: what `serve` promises of wires that tell, said of one without a premise.
ghost use Rattle.std.specs.Prelude.{◌≡◌, ◌≤◌, [], map};
ghost use Rattle.rk_names.specs.declared.numbers.SessionId.TheVariants.{Client};
ghost use Rattle.rk_devices.specs.Counts.{most};
ghost use Rattle.rk_live_tests.specs.Telling.{IsTalk, happened};

use crate::fakes::around::{Around, Bin, Open, Ticking, stage_of};
use crate::fakes::launcher::Fake;
use crate::fakes::programs::NOTHING;
use crate::halls::opening::{Scene, in_new_halls};
use crate::halls::paths::settles;
use crate::kept::Kept;
use crate::same::same;
use crate::sessions::bytes::HELLO_AND_READ;
use crate::sessions::telling::Telling;
use rk_conf::Conf;
use rk_frame::{Frames, MAX_PIECE};
use rk_hall::{Halls, Names, Seat};
use rk_session::{Caller, Crew, Platform, Served, Stage, serve};
use std::alloc::{AllocError, Global};
use std::process::Abort;
use std::sync::Wait;

/// Serves a session over a wire on which nothing has happened: all that happens on it is the talk of that session.
fn serve_told<P: Platform, R: Abort>(
    stage: &Stage<'_, P>,
    crew: &mut Crew<P>,
    client: u32,
    frames: Frames,
    wire: &mut Telling<'_, R>,
) -> Served
    requires frames { (frames.bytes ≡ []) × (4096 ≤ frames.room) }
    requires bound { (P.Launcher.shown crew.old.launcher).count ≤ most }
    requires first { wire.old.kept.items ≡ [] }
    ensures { IsTalk (Client client) result (map happened wire.new.kept.items) }
{
    serve(stage, crew, client, frames, wire)
}

/// What happened, one letter for each: r for bytes that came, n for a receipt, w for bytes that were written.
fn letters(alloc: Global, kept: &[Kept]) -> Result<Vec<u8>, AllocError> {
    let mut letters = Vec::new(alloc);
    for one in kept {
        letters.push(match one {
            Kept::Came(_) => b'r',
            Kept::Noted(_) => b'n',
            Kept::Went(_) => b'w',
        })?;
    }
    Ok(letters)
}

/// A client says who it is, and reads what is no key. Each message has its receipt and its reply before the end of the input is read.
struct Talk;

impl Scene for Talk {
    fn play<N: Names, R: Wait + Abort + Copy>(&self, rt: &R, alloc: Global, halls: Halls<N>) {
        let seat = hears(rt, alloc, &halls);
        let seats = vec![in alloc; seat].expect(rt, "memory");
        same(rt, settles(rt, alloc, halls, seats), 4);
    }
}

/// Serves it, and looks at what happened. The seat comes back.
fn hears<'a, N: Names, R: Wait + Abort>(rt: &'a R, alloc: Global, halls: &'a Halls<N>) -> Seat<N> {
    let conf = Conf::read(alloc, NOTHING.conf).expect(rt, "lines");
    let fake = Fake::new(alloc, NOTHING.programs, None).expect(rt, "memory");
    let frames = Frames::new(alloc).expect(rt, "memory");
    let seat = halls.seat(rt).expect(rt, "a seat");
    let (gate, shelf) = (Open::new(), Bin::new());
    let stage = stage_of(rt, alloc, halls, &conf, &gate, &shelf);
    let caller = Caller {
        seat,
        clock: Ticking::new(),
    };
    let mut crew: Crew<Around<N, R, Open>> = Crew {
        caller,
        launcher: fake,
        piece: [0; MAX_PIECE],
        reply: Vec::new(alloc),
    };
    let mut wire = Telling::new(rt, alloc, HELLO_AND_READ);
    let served = serve_told(&stage, &mut crew, 1, frames, &mut wire);
    let letters = letters(alloc, &wire.kept).expect(rt, "memory");
    same(
        rt,
        (served, letters.as_slice()),
        (Served::Ended, b"rnwnwr".as_slice()),
    );
    let Crew {
        caller: Caller { seat, clock },
        launcher,
        piece: _,
        reply: _,
    } = crew;
    drop(clock);
    drop(launcher);
    seat
}

#[test]
fn all_that_happens_is_a_talk(rt: HostRuntime) {
    in_new_halls(&rt, rt.alloc(), 100, &Talk);
}
