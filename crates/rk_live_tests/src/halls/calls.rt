//! What a client and its handler do, in hall 0 for the most part.
ghost use Rattle.rk_hall.specs.Seats.{IsCall};

use crate::asks::{CLIENT, NOW, asked, hello, request};
use rk_hall::{Called, HallNo, Halls, Launch, Names, Owed, Receipt, ReceiptView, Seat};
use rk_machine::{EventView, Ran};
use std::alloc::Global;
use std::process::Abort;
use std::sync::Wait;

/// A start that failed: the receipt of its step.
pub fn fails<N: Names, R: Wait + Abort>(
    rt: &R,
    halls: &Halls<N>,
    seat: &mut Seat<N>,
    launch: Launch<N>,
) -> ReceiptView<'static> {
    let Owed { value, receipt } = halls.launched(rt, seat, NOW, launch, Ran::Failed);
    match value {
        None => {}
        Some(_running) => unreachable!(),
    }
    receipt.expect(rt, "a receipt")
}

/// There is to be no launch.
pub fn refuse_launch<N: Names, R: Wait + Abort>(
    rt: &R,
    halls: &Halls<N>,
    seat: &mut Seat<N>,
    launch: Option<Launch<N>>,
) {
    if let Some(launch) = launch {
        drop(fails(rt, halls, seat, launch));
        assert!(rt; false, "a launch");
    }
}

/// A call that begins no construction.
pub fn calls<'a, N: Names, R: Wait + Abort>(
    rt: &R,
    halls: &Halls<N>,
    seat: &mut Seat<N>,
    event: EventView<'a>,
) -> ReceiptView<'a>
    requires { IsCall event }
{
    calls_in(rt, halls, seat, HallNo::Zero, event)
}

/// The same, in this hall.
pub fn calls_in<'a, N: Names, R: Wait + Abort>(
    rt: &R,
    halls: &Halls<N>,
    seat: &mut Seat<N>,
    hall: HallNo,
    event: EventView<'a>,
) -> ReceiptView<'a>
    requires { IsCall event }
{
    let called = halls.call(rt, seat, hall, NOW, event);
    let Called { receipt, launch } = called.expect(rt, "a receipt");
    refuse_launch(rt, halls, seat, launch);
    receipt
}

/// The receipt with a copy of what it borrows. Out of memory ends the test.
pub fn kept<R: Abort>(rt: &R, alloc: Global, receipt: ReceiptView<'_>) -> Receipt {
    receipt.to_owned(alloc).expect(rt, "memory")
}

/// The client comes and says who it is.
pub fn greets<N: Names, R: Wait + Abort>(
    rt: &R,
    alloc: Global,
    halls: &Halls<N>,
    seat: &mut Seat<N>,
) -> (Receipt, Receipt) {
    let opened = calls(rt, halls, seat, EventView::Opened(CLIENT));
    let opened = kept(rt, alloc, opened);
    let ask = hello();
    let rings = calls(rt, halls, seat, asked(&ask));
    let rings = kept(rt, alloc, rings);
    (opened, rings)
}

/// It requests the key `a`, whose construction begins.
pub fn requests<N: Names, R: Wait + Abort>(
    rt: &R,
    halls: &Halls<N>,
    seat: &mut Seat<N>,
) -> Launch<N> {
    let ask = request(b"a").expect(rt, "an ask");
    let called = halls.call(rt, seat, HallNo::Zero, NOW, asked(&ask));
    let Called { receipt: _, launch } = called.expect(rt, "a receipt");
    launch.expect(rt, "a launch")
}
