//! What happens to the halls of the tests, and tables of it.
ghost use Rattle.std.specs.Prelude.{◌≤◌};

use crate::answers::{Said, in_words};
use crate::asks::{CLIENT, add, asked, hello, payload, request};
use crate::same::same;
use rk_core::Limits;
use rk_machine::{EventView, How, Ran};
use rk_message::AskView;
use rk_names::{Moment, Serial};
use rk_record::{Hall, HallFault, HallNo, ReceiptView};
use std::alloc::Global;
use std::process::Abort;

/// Of what hall 0 draws its serials: 4, 8, 12 and so on.
pub fn limits(rt: &impl Abort) -> Limits
    ensures { 1 ≤ result.stride }
{
    limits_of(rt, HallNo::Zero)
}

/// Of what a hall draws its serials: every fourth, from 4 on or from its number on.
pub fn limits_of(rt: &impl Abort, no: HallNo) -> Limits
    ensures { 1 ≤ result.stride }
{
    let number = match no {
        HallNo::Zero => 4,
        HallNo::One => 1,
        HallNo::Two => 2,
        HallNo::Three => 3,
    };
    Limits {
        negative: 60,
        first: key(rt, number),
        stride: 4,
        seed: 0,
    }
}

/// Hall 0, empty, whose volumes may have so many steps.
pub fn hall(rt: &impl Abort, alloc: Global, steps: usize) -> Hall {
    assert!(rt; 1 <= steps && steps <= 1_048_576);
    Hall::new(alloc, limits(rt), HallNo::Zero, steps).expect(rt, "memory")
}

/// The serial of this number.
pub fn key(rt: &impl Abort, number: u32) -> Serial {
    Serial::new(number).expect(rt, "a serial")
}

/// What happens, in a table.
#[derive(Clone, Copy)]
pub enum Happens {
    /// The client comes.
    Opened,
    /// It says HELLO.
    Hello,
    /// It adds a key of this description.
    Add(&'static [u8]),
    /// It requests a key of this description.
    Request(&'static [u8]),
    /// The start of this key's handler has come to this.
    Launched(u32, Ran),
    /// The handler of this key has ended, and has put these bytes out.
    Ended(u32, How, &'static [u8]),
    /// It collects its outcome.
    Collect,
    /// It goes.
    Gone,
}

/// Takes the turn of a table's line, and gives what is said to it.
fn turned(rt: &impl Abort, alloc: Global, hall: &mut Hall, now: Moment, happens: Happens) -> Said {
    match happens {
        Happens::Opened => told(hall.turn(now, EventView::Opened(CLIENT))),
        Happens::Hello => asks(hall, now, hello()),
        Happens::Add(name) => asks(hall, now, add(name).expect(rt, "an ask")),
        Happens::Request(name) => asks(hall, now, request(name).expect(rt, "an ask")),
        Happens::Launched(number, ran) => {
            told(hall.turn(now, EventView::Launched(key(rt, number), ran)))
        }
        Happens::Ended(number, how, bytes) => {
            let put_out = payload(alloc, bytes).expect(rt, "memory");
            told(hall.turn(now, EventView::Ended(key(rt, number), how, Some(put_out))))
        }
        Happens::Collect => told(hall.turn(now, EventView::Collect(CLIENT))),
        Happens::Gone => told(hall.turn(now, EventView::Gone(CLIENT))),
    }
}

/// The client asks, and gets this answer.
fn asks(hall: &mut Hall, now: Moment, ask: AskView<'_>) -> Said {
    told(hall.turn(now, asked(&ask)))
}

/// Plays a table: each line has its second, what happens, and what is said to it.
pub fn play(rt: &impl Abort, alloc: Global, hall: &mut Hall, table: &[(u64, Happens, Said)]) {
    for (second, happens, said) in table {
        let answer = turned(rt, alloc, hall, Moment(*second), *happens);
        same(rt, answer, *said);
    }
}

/// What the receipt says, or why there is none.
fn told(receipt: Result<ReceiptView<'_>, HallFault>) -> Said {
    match receipt {
        Ok(receipt) => in_words(receipt.answer()),
        Err(HallFault::Full) => Said::Full,
        Err(HallFault::NoMemory) => Said::NoMemory,
    }
}
