//! The volumes of a hall's record.
use crate::answers::Said;
use crate::record::events::{Happens, hall, limits, play};
use crate::same::same;
use rk_machine::Answer;
use rk_message::Reply;
use rk_record::{Hall, HallNo, Recorded, Rejoin, Volume, rejoin};
use std::alloc::Global;
use std::process::Abort;

/// Five steps fill a volume of six, since the client's end is owed.
const FILLED: &[(u64, Happens, Said)] = &[
    (100, Happens::Opened, Said::Number(0)),
    (100, Happens::Hello, Said::Rings(4, 8)),
    (100, Happens::Add(b"a"), Said::Number(12)),
    (100, Happens::Add(b"b"), Said::Number(16)),
    (100, Happens::Add(b"c"), Said::Number(20)),
    (100, Happens::Add(b"d"), Said::Full),
];

/// What goes on in the next volume.
const NEXT: &[(u64, Happens, Said)] = &[
    (100, Happens::Add(b"d"), Said::Number(24)),
    (101, Happens::Gone, Said::Number(0)),
];

/// Fills the first volume of a hall of six steps, and hands it out. Six are enough for any event, and the one that is left is not.
fn rolled(rt: &impl Abort, alloc: Global, hall: &mut Hall) -> Volume {
    same(rt, hall.has_places(), true);
    play(rt, alloc, hall, FILLED);
    same(rt, (hall.count(), hall.has_places()), (5, false));
    hall.roll().expect(rt, "a volume")
}

/// A step once more, with this answer.
fn with_answer(rt: &impl Abort, step: &Recorded, answer: Answer) -> Recorded {
    Recorded {
        now: step.now,
        event: step.event.clone().expect(rt, "memory"),
        answer,
    }
}

/// Steps once more, of which the one at `wrong` is answered by the serial 21.
fn copied(rt: &impl Abort, alloc: Global, steps: &[Recorded], wrong: usize) -> Vec<Recorded> {
    let mut copies = Vec::new(alloc);
    for (at, step) in steps.iter().enumerate() {
        let answer = if at == wrong {
            Answer::Done(Reply::Number(21))
        } else {
            step.answer.clone().expect(rt, "memory")
        };
        let copy = with_answer(rt, step, answer);
        copies.push(copy).expect(rt, "memory");
    }
    copies
}

/// What the first volume says, and what the hall says once it is handed out.
fn tells_of_the_volume(rt: &impl Abort, hall: &Hall, volume: &Volume) {
    same(
        rt,
        (volume.hall(), volume.index(), volume.before()),
        (HallNo::Zero, 1, 0),
    );
    same(rt, volume.steps().len(), 5);
    same(
        rt,
        (hall.index(), hall.before(), hall.steps().len()),
        (2, 5, 0),
    );
}

/// The numbers of steps go on in the next volume, and both join to a run.
fn joins(rt: &impl Abort, alloc: Global, hall: &Hall, volume: &Volume) {
    same(rt, (hall.index(), hall.count()), (2, 7));
    let joined = rejoin(alloc, limits(rt), &[volume.steps(), hall.steps()]);
    same(rt, joined, Ok(7));
    same(rt, rejoin(alloc, limits(rt), &[]), Ok(0));
}

/// What was answered otherwise, or is left out, is found, and where.
fn breaks(rt: &impl Abort, alloc: Global, hall: &Hall, volume: &Volume) {
    let changed = copied(rt, alloc, volume.steps(), 4);
    let joined = rejoin(alloc, limits(rt), &[&changed, hall.steps()]);
    same(rt, joined, Err(Rejoin::Broken { number: 5 }));
    let alone = rejoin(alloc, limits(rt), &[hall.steps()]);
    same(rt, alone, Err(Rejoin::Broken { number: 1 }));
}

#[test]
fn volumes_join_to_a_run(rt: HostRuntime) {
    let alloc = rt.alloc();
    let mut hall = hall(&rt, alloc, 6);
    let volume = rolled(&rt, alloc, &mut hall);
    tells_of_the_volume(&rt, &hall, &volume);
    play(&rt, alloc, &mut hall, NEXT);
    joins(&rt, alloc, &hall, &volume);
    breaks(&rt, alloc, &hall, &volume);
    drop(volume);
    drop(hall);
}

/// The volume that is being recorded takes the memory of the one before, as long as it has no step, and forgets that one's steps. What it had is kept.
#[test]
fn a_volume_without_a_step_takes_memory(rt: HostRuntime) {
    let alloc = rt.alloc();
    let mut hall = hall(&rt, alloc, 6);
    let steps = rolled(&rt, alloc, &mut hall).into_steps();
    let capacity = steps.capacity();
    same(&rt, (steps.len(), hall.keep_memory(steps).len()), (5, 0));
    let less = hall.keep_memory(Vec::new(alloc));
    same(&rt, (less.len(), less.capacity() < capacity), (0, true));
    same(&rt, (hall.before(), hall.steps().len()), (5, 0));
    play(&rt, alloc, &mut hall, NEXT);
    is_second(&rt, &mut hall);
    drop(hall);
}

/// The next volume takes it otherwise, and forgets the steps too. What is kept twice gives back what was kept first.
#[test]
fn memory_of_a_volume_is_taken_again(rt: HostRuntime) {
    let alloc = rt.alloc();
    let mut hall = hall(&rt, alloc, 6);
    let steps = rolled(&rt, alloc, &mut hall).into_steps();
    play(&rt, alloc, &mut hall, NEXT);
    same(&rt, (steps.len(), hall.keep_memory(steps).len()), (5, 0));
    let steps = hall.keep_memory(Vec::new(alloc));
    same(&rt, (steps.len(), hall.keep_memory(steps).len()), (5, 0));
    is_second(&rt, &mut hall);
    same(&rt, (hall.before(), hall.steps().len()), (7, 0));
    same(&rt, hall.keep_memory(Vec::new(alloc)).len(), 0);
    drop(hall);
}

/// The volume that the hall hands out is the second, with its two steps.
fn is_second(rt: &impl Abort, hall: &mut Hall) {
    let second = hall.roll().expect(rt, "a volume");
    same(
        rt,
        (second.index(), second.before(), second.steps().len()),
        (2, 5, 2),
    );
}
