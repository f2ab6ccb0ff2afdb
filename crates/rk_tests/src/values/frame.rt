//! What no script shows of frames: what many small ones cost, and what results from failed allocations.
use crate::same::same;
use rk_frame::{Frames, Next, any_cutting};
use std::alloc::AllocError;
use std::process::Abort;
use std::test::Fail;

/// The frames of the bodies `hi` and 42.
const STREAM: [u8; 11] = [0, 0, 0, 2, b'h', b'i', 0, 0, 0, 1, 42];

/// Asserts what `next` answers.
fn expect(rt: &impl Abort, frames: &mut Frames, want: Next<'_>) {
    same(rt, frames.next(), want);
}

/// A million bytes of frames of one byte, of which a new one comes for each that is handed out.
/// Moving them all each time would take minutes.
#[test]
fn a_frame_costs_no_more_than_its_bytes(rt: HostRuntime) -> Result<(), Fail> {
    any_cutting();
    let mut frames = Frames::new(rt.alloc())?;
    for _ in 0..200_000 {
        frames.feed(&[0, 0, 0, 1, 42])?;
    }
    same(&rt, frames.held(), 1_000_000);
    for _ in 0..200_000 {
        expect(&rt, &mut frames, Next::Whole(&[42]));
        frames.feed(&[0, 0, 0, 1, 43])?;
    }
    for _ in 0..200_000 {
        expect(&rt, &mut frames, Next::Whole(&[43]));
    }
    expect(&rt, &mut frames, Next::More);
    Ok(())
}

/// Goes well whichever allocation is refused.
#[test]
fn a_refused_growth_changes_nothing(rt: HostRuntime) -> Result<(), Fail> {
    let alloc = rt.alloc();
    let (Ok(mut frames), Ok(zeros)) = (Frames::new(alloc), vec![in alloc; 0; 69_635]) else {
        return Ok(());
    };
    // there was room
    same(&rt, frames.feed(&STREAM), Ok(()));
    match frames.feed(&zeros) {
        Ok(()) => same(&rt, frames.held(), 69_646),
        Err(AllocError) => same(&rt, frames.held(), 11),
    }
    expect(&rt, &mut frames, Next::Whole(b"hi"));
    expect(&rt, &mut frames, Next::Whole(&[42]));
    Ok(())
}
