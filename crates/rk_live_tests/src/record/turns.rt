//! The turns of one hall, and what their receipts say.
use crate::answers::{Said, in_words};
use crate::asks::{CLIENT, asked, description, hello, user};
use crate::record::events::{Happens, hall, key, play};
use crate::same::same;
use rk_machine::{Event, EventView, How, Ran};
use rk_names::{Errno, Moment, Serial};
use rk_record::{Hall, HallNo, Receipt};
use std::alloc::Global;
use std::process::Abort;

/// Clients stand in the hall of their uid, keys in that of their serial.
#[test]
fn halls_are_told_by_remainders(rt: HostRuntime) {
    same(&rt, HallNo::of_uid(0), HallNo::Zero);
    same(&rt, HallNo::of_uid(1001), HallNo::One);
    same(&rt, HallNo::of_uid(1002), HallNo::Two);
    same(&rt, HallNo::of_uid(4_294_967_295), HallNo::Three);
    for (serial, hall) in [
        (12, HallNo::Zero),
        (5, HallNo::One),
        (2_147_483_647, HallNo::Three),
    ] {
        same(&rt, HallNo::of_serial(key(&rt, serial)), hall);
    }
    for (number, hall) in HallNo::ALL.iter().enumerate() {
        same(&rt, usize::from(hall.number()), number);
    }
}

/// Up to the start of a piped handler.
const BEGUN: &[(u64, Happens, Said)] = &[
    (100, Happens::Opened, Said::Number(0)),
    (100, Happens::Hello, Said::Rings(4, 8)),
    (100, Happens::Add(b"b"), Said::Number(12)),
    (100, Happens::Request(b"a"), Said::Start(16)),
];

/// From there to its end, and on.
const ENDED: &[(u64, Happens, Said)] = &[
    (101, Happens::Launched(16, Ran::Piped), Said::Number(0)),
    (
        102,
        Happens::Ended(16, How::Exit(0), b"hi"),
        Said::Number(0),
    ),
    (102, Happens::Collect, Said::Number(16)),
    (102, Happens::Collect, Said::Refused(Errno::Einval)),
    (103, Happens::Gone, Said::Number(0)),
];

/// What the hall tells of a client that waits for key 16, and of that key.
fn tells_of_the_wait(rt: &impl Abort, hall: &Hall, key_12: Serial, key_16: Serial) {
    same(
        rt,
        (hall.waits(&CLIENT), hall.ready(&CLIENT)),
        (true, false),
    );
    same(
        rt,
        (hall.depth(key_16), hall.depth(key_12)),
        (Some(1), None),
    );
    same(
        rt,
        hall.owes(&EventView::Launched(key_16, Ran::Piped)),
        true,
    );
    same(rt, hall.owes(&EventView::Collect(CLIENT)), false);
    same(rt, (hall.keys(), hall.constructions()), (2, 1));
}

/// What a handler of this key finds under the name `b`.
fn found(rt: &impl Abort, alloc: Global, hall: &Hall, key: Serial) -> Option<usize> {
    let typ = user(alloc).expect(rt, "a type");
    let description = description(alloc, b"b").expect(rt, "memory");
    let bytes = hall.peek(key, &typ, &description, Moment(100));
    bytes.map(|bytes| bytes.len())
}

/// A piped handler makes a key: each turn, and what the hall tells between them.
fn makes_a_key(rt: &impl Abort, alloc: Global, hall: &mut Hall) {
    play(rt, alloc, hall, BEGUN);
    let (key_12, key_16) = (key(rt, 12), key(rt, 16));
    tells_of_the_wait(rt, hall, key_12, key_16);
    same(rt, found(rt, alloc, hall, key_16), Some(1));
    play(rt, alloc, hall, ENDED);
    same(rt, (hall.keys(), hall.constructions()), (0, 0));
    same(rt, (hall.index(), hall.before(), hall.count()), (1, 0, 9));
    same(rt, (hall.steps().len(), hall.no()), (9, HallNo::Zero));
}

#[test]
fn a_piped_handler_makes_a_key(rt: HostRuntime) {
    let mut hall = hall(&rt, rt.alloc(), 64);
    makes_a_key(&rt, rt.alloc(), &mut hall);
    drop(hall);
}

/// Whether the step at this place is the one that the receipt says.
fn is_of(hall: &Hall, receipt: &Receipt, at: usize) -> bool {
    hall.steps().get(at).is_some_and(|step| receipt.is_of(step))
}

/// What the receipt of a HELLO says, the second step of a hall.
fn says_hello(rt: &impl Abort, alloc: Global, receipt: &Receipt) {
    let said = Event::Asked(CLIENT, hello().to_owned(alloc).expect(rt, "memory"));
    same(
        rt,
        (receipt.hall(), receipt.volume(), receipt.number()),
        (HallNo::Zero, 1, 2),
    );
    same(rt, receipt.now(), Moment(101));
    same(rt, receipt.told().is_of(&said), true);
    same(rt, receipt.told().is_of(&Event::Opened(CLIENT)), false);
    same(rt, in_words(receipt.answer()), Said::Rings(4, 8));
}

/// The client comes; the receipt says that step.
fn opens(rt: &impl Abort, alloc: Global, hall: &mut Hall) {
    let receipt = hall.turn(Moment(100), EventView::Opened(CLIENT));
    let receipt = receipt.expect(rt, "a receipt").to_owned(alloc);
    let receipt = receipt.expect(rt, "memory");
    same(rt, is_of(hall, &receipt, 0), true);
}

/// It says who it is; the receipt says that step, and no other.
fn greets(rt: &impl Abort, alloc: Global, hall: &mut Hall) {
    let ask = hello();
    let receipt = hall.turn(Moment(101), asked(&ask));
    let receipt = receipt.expect(rt, "a receipt").to_owned(alloc);
    let receipt = receipt.expect(rt, "memory");
    says_hello(rt, alloc, &receipt);
    same(rt, is_of(hall, &receipt, 0), false);
    same(rt, is_of(hall, &receipt, 1), true);
}

/// A receipt says the step, and differs from that of any other.
#[test]
fn a_receipt_says_its_step(rt: HostRuntime) {
    let mut hall = hall(&rt, rt.alloc(), 64);
    opens(&rt, rt.alloc(), &mut hall);
    greets(&rt, rt.alloc(), &mut hall);
    drop(hall);
}
