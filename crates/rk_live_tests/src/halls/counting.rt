//! How much there is in each hall.

use crate::halls::calls::{calls_in, fails, greets, requests};
use crate::halls::opening::{Scene, in_new_halls};
use crate::same::same;
use rk_hall::{Counts, HallNo, Halls, Names, Seat};
use rk_machine::EventView;
use rk_names::SessionId;
use std::alloc::Global;
use std::process::Abort;
use std::sync::Wait;

/// So many clients come to this hall, which has places for 64. Their numbers are the greatest.
pub fn come<N: Names, R: Wait + Abort>(
    rt: &R,
    halls: &Halls<N>,
    seat: &mut Seat<N>,
    hall: HallNo,
    clients: u32,
) {
    for number in 0..clients {
        let client = SessionId::Client(u32::MAX - number);
        drop(calls_in(rt, halls, seat, hall, EventView::Opened(client)));
    }
}

/// The halls have so many keys, constructions and EDQUOTs, by their numbers.
fn count<N: Names, R: Wait + Abort>(rt: &R, halls: &Halls<N>, wanted: [(u64, u64, u64); 4]) {
    for (hall, (keys, constructions, edquots)) in HallNo::ALL.iter().zip(&wanted) {
        let counts = Counts {
            keys: *keys,
            constructions: *constructions,
            edquots: *edquots,
        };
        same(rt, halls.counts(rt, *hall), counts);
    }
}

const EMPTY: (u64, u64, u64) = (0, 0, 0);

/// A client of hall 0 requests a key whose handler can't be started: the key is negative then, and stays. Then more clients come than halls have places for.
struct Counting;

impl Scene for Counting {
    fn play<N: Names, R: Wait + Abort + Copy>(&self, rt: &R, alloc: Global, halls: Halls<N>) {
        let mut seat = halls.seat(rt).expect(rt, "a seat");
        drop(greets(rt, alloc, &halls, &mut seat));
        count(rt, &halls, [EMPTY; 4]);
        let launch = requests(rt, &halls, &mut seat);
        count(rt, &halls, [(1, 1, 0), EMPTY, EMPTY, EMPTY]);
        drop(fails(rt, &halls, &mut seat, launch));
        count(rt, &halls, [(1, 0, 0), EMPTY, EMPTY, EMPTY]);
        come(rt, &halls, &mut seat, HallNo::One, 64);
        come(rt, &halls, &mut seat, HallNo::Two, 65);
        come(rt, &halls, &mut seat, HallNo::Three, 66);
        count(rt, &halls, [(1, 0, 0), EMPTY, (0, 0, 1), (0, 0, 2)]);
        halls.retire(rt, seat);
    }
}

#[test]
fn what_is_in_each_hall_is_counted(rt: HostRuntime) {
    in_new_halls(&rt, rt.alloc(), 200, &Counting);
}
