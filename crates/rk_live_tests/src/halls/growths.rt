//! A client from its coming to its end: what each step is answered, also if allocations are refused: a call makes no step then, and nothing that
//! is owed needs memory.
//!
//! With ample memory it goes its whole path. tests/test_growths.py plays it with allocations refused: at the first call that is refused the client goes.
//! Whatever it came to, the records agree with the receipts; last the steps are compared with those of the whole path, so that a fault shows both.
ghost use Rattle.rk_hall.specs.Seats.{IsCall};

use crate::answers::Said;
use crate::asks::{CLIENT, NOW, OTHER, asked, asked_by, hello, joining, long_request, payload};
use crate::halls::calls::refuse_launch;
use crate::halls::opening::{Scene, in_new_halls};
use crate::halls::paths::{
    End, all, collects, ends, goes, keep, negates, runs, say, settled, strays,
};
use crate::record::events::key;
use crate::same::same;
use rk_hall::{CallFault, Called, HallNo, Halls, Launch, Names, Receipt, Seat};
use rk_machine::{EventView, How};
use rk_names::{Errno, Payload};
use std::alloc::{AllocError, Global};
use std::process::Abort;
use std::sync::Wait;

/// The path of a client whose piped handler exits with this status: with 0 its key is made, else another handler follows, which can't be started.
#[derive(Clone, Copy)]
pub struct Growths {
    /// The handler's exit status.
    status: u8,
    /// Whether another client of its session ring requests the same key, and waits with it.
    two: bool,
    /// What each step of the whole path is answered.
    answers: &'static [Said],
}

impl Scene for Growths {
    /// Goes the path as far as memory reaches, and settles.
    fn play<N: Names, R: Wait + Abort + Copy>(&self, rt: &R, alloc: Global, halls: Halls<N>) {
        let mut seats = Vec::with_capacity(alloc, 1).expect(rt, "memory");
        let mut receipts = Vec::with_capacity(alloc, 16).expect(rt, "memory");
        let put_out = payload(alloc, b"v").expect(rt, "memory");
        let mut seat = halls.seat(rt).expect(rt, "a seat");
        strays(rt, &halls, &mut seat);
        self.follow(rt, &halls, &mut seat, &mut receipts, put_out);
        same(rt, seat.clients(), 0);
        seats.push(seat).expect(rt, "memory");
        let total = settled(alloc, halls, seats, &receipts);
        same(rt, total, Ok(all(receipts.len() as u64)));
        say(rt, &receipts, self.answers);
    }
}

impl Growths {
    /// The path.
    fn follow<N: Names, R: Wait + Abort>(
        &self,
        rt: &R,
        halls: &Halls<N>,
        seat: &mut Seat<N>,
        receipts: &mut Vec<Receipt>,
        put_out: Payload,
    ) {
        if is_made(rt, halls, seat, receipts, EventView::Opened(CLIENT)) {
            let hello = hello();
            if is_made(rt, halls, seat, receipts, asked(&hello)) {
                self.construct(rt, halls, seat, receipts, put_out);
            }
            goes(rt, halls, seat, receipts, CLIENT);
        }
    }

    /// The key is requested, and, where there is memory for that call, its construction comes to its end.
    fn construct<N: Names, R: Wait + Abort>(
        &self,
        rt: &R,
        halls: &Halls<N>,
        seat: &mut Seat<N>,
        receipts: &mut Vec<Receipt>,
        put_out: Payload,
    ) {
        let ask = long_request(b"a").expect(rt, "a request");
        let requested = tries(rt, halls, seat, receipts, asked(&ask));
        if let Ok(launch) = requested {
            let launch = launch.expect(rt, "a launch");
            let waits = self.two && joins(rt, halls, seat, receipts);
            let how = How::Exit(self.status);
            finish(rt, halls, seat, receipts, launch, End { how, put_out });
            if waits {
                collects(rt, halls, seat, receipts, OTHER);
                goes(rt, halls, seat, receipts, OTHER);
            }
        }
    }
}

/// All that is owed to a start, and the outcome; a seat is given back, too.
fn finish<N: Names, R: Wait + Abort>(
    rt: &R,
    halls: &Halls<N>,
    seat: &mut Seat<N>,
    receipts: &mut Vec<Receipt>,
    launch: Launch<N>,
    end: End,
) {
    let other = halls.seat(rt).expect(rt, "a seat");
    let running = runs(rt, halls, seat, receipts, launch);
    let is_made = end.how == How::Exit(0);
    let next = ends(rt, halls, seat, receipts, running, end);
    if is_made {
        refuse_launch(rt, halls, seat, next);
    } else {
        negates(rt, halls, seat, receipts, next);
    }
    collects(rt, halls, seat, receipts, CLIENT);
    halls.retire(rt, other);
}

/// The other client comes to the session ring of the first one, and waits for its key. Whether it waits; if there was no memory for that it has gone.
fn joins<N: Names, R: Wait + Abort>(
    rt: &R,
    halls: &Halls<N>,
    seat: &mut Seat<N>,
    receipts: &mut Vec<Receipt>,
) -> bool {
    if !is_made(rt, halls, seat, receipts, EventView::Opened(OTHER)) {
        return false;
    }
    let joining = joining(key(rt, 4));
    let mut waits = is_made(rt, halls, seat, receipts, asked_by(OTHER, &joining));
    if waits {
        let ask = long_request(b"a").expect(rt, "a request");
        waits = is_made(rt, halls, seat, receipts, asked_by(OTHER, &ask));
    }
    if !waits {
        goes(rt, halls, seat, receipts, OTHER);
    }
    waits
}

/// A call that begins no construction. Whether there was memory for it.
fn is_made<N: Names, R: Wait + Abort>(
    rt: &R,
    halls: &Halls<N>,
    seat: &mut Seat<N>,
    receipts: &mut Vec<Receipt>,
    event: EventView<'_>,
) -> bool
    requires { IsCall event }
{
    match tries(rt, halls, seat, receipts, event) {
        Ok(launch) => {
            refuse_launch(rt, halls, seat, launch);
            true
        }
        Err(AllocError) => false,
    }
}

/// A call; an `Err` is out of memory.
fn tries<N: Names, R: Wait + Abort>(
    rt: &R,
    halls: &Halls<N>,
    seat: &mut Seat<N>,
    receipts: &mut Vec<Receipt>,
    event: EventView<'_>,
) -> Result<Option<Launch<N>>, AllocError>
    requires { IsCall event }
{
    match halls.call(rt, seat, HallNo::Zero, NOW, event) {
        Ok(Called { receipt, launch }) => {
            keep(rt, receipts, receipt);
            Ok(launch)
        }
        Err(fault) => {
            same(rt, fault, CallFault::NoMemory);
            Err(AllocError)
        }
    }
}

#[test]
fn growths_of_a_key_that_is_made(rt: HostRuntime) {
    let made = Growths {
        status: 0,
        two: false,
        answers: &[
            Said::Number(0),
            Said::Rings(4, 8),
            Said::Start(12),
            Said::Number(0),
            Said::Number(0),
            Said::Number(12),
            Said::Number(0),
        ],
    };
    in_new_halls(&rt, rt.alloc(), 100, &made);
}

#[test]
fn growths_of_a_second_handler(rt: HostRuntime) {
    let followed = Growths {
        status: 1,
        two: false,
        answers: &[
            Said::Number(0),
            Said::Rings(4, 8),
            Said::Start(12),
            Said::Number(0),
            Said::Negate(12),
            Said::Number(0),
            Said::Refused(Errno::Enokey),
            Said::Number(0),
        ],
    };
    in_new_halls(&rt, rt.alloc(), 100, &followed);
}

#[test]
fn growths_of_two_requesters(rt: HostRuntime) {
    let shared = Growths {
        status: 0,
        two: true,
        answers: &[
            Said::Number(0),
            Said::Rings(4, 8),
            Said::Start(12),
            Said::Number(0),
            Said::Rings(4, 8),
            Said::Waiting(12),
            Said::Number(0),
            Said::Number(0),
            Said::Number(12),
            Said::Number(12),
            Said::Number(0),
            Said::Number(0),
        ],
    };
    in_new_halls(&rt, rt.alloc(), 100, &shared);
}
