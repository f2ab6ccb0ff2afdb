//! Halls that were taken out of their locks, with the seats that were handed in.
ghost use Rattle.std.specs.Prelude.{◌≡◌, ◌+◌, ◌≤◌, ◌^◌};
ghost use Rattle.rk_record.specs.HallNumbers.{hall_number};
ghost use Rattle.rk_record.specs.Record.{IsRecord};
ghost use Rattle.rk_hall.specs.Locked.{taken};
ghost use Rattle.rk_hall.specs.Closed.{closed_of, with_seats};

use crate::four::{by_hall, of_hall};
use crate::halls::Halls;
use crate::locked::Locked;
use crate::names::{Calls, Names};
use crate::part::Part;
use crate::seat::Seat;
use rk_record::{Hall, HallNo};
use std::marker::Model;
use std::sync::ledger::{Book, Share};

/// Hall `H` out of its lock. Its share of the record is the turns of the seats that were given back and of those that were handed in.
#[derive(Drop)]
pub(crate) struct Closed<N: Names, const H: u64> {
    /// Its book and record, as the last turn left them.
    pub(crate) hall: Hall,
    /// The turns of the seats that were handed in.
    pub(crate) live: u64,
    /// The turns of the seats that were given back before.
    pub(crate) retired: u64,
    /// The tickets that were spent though nothing was owed.
    pub(crate) strays: u64,
    /// The book of the ledger of turns.
    pub(crate) calls: Book<Calls<N, H>>,
    /// What the hall kept of the ledger of turns, and then what seats gave back.
    pub(crate) pool: Share<Calls<N, H>>,
}

impl<N: Names, const H: u64> Model for Closed<N, H> {
    ghost use Rattle.rk_hall.specs.Closed.{ClosedShown, closed_code, IsClosed};

    ghost Value = { ClosedShown };

    ghost coded = { closed_code };

    ghost view = { λ k. record { hall = k.hall; live = k.live; retired = k.retired; strays = k.strays } };

    ghost invariant = { λ k. IsClosed H k.hall k.live k.retired k.strays k.calls.total k.pool.amount };
}

impl<N: Names, const H: u64> Closed<N, H> {
    /// The hall of a lock, which no seat is handed in to yet.
    pub(crate) fn of(locked: Locked<N, H>) -> Closed<N, H>
        ensures { result ≡ record { hall = locked.hall; live = 0; retired = locked.retired; strays = locked.strays } }
    {
        let Locked {
            hall,
            left: _,
            retired,
            strays,
            edquots: _,
            mut calls,
            mut pool,
            mut out,
            mut home,
        } = locked;
        let _steps = hall.count();
        calls.audit(&mut pool);
        out.audit(&mut home);
        Closed {
            hall,
            live: 0,
            retired,
            strays,
            calls,
            pool,
        }
    }

    /// The hall.
    fn hall(&self) -> &Hall
        ensures { result.now ≡ self.now.hall }
    {
        &self.hall
    }

    /// How many steps it has taken.
    pub(crate) fn steps(&self) -> u64
        ensures steps { result ≡ taken self.now.hall }
        ensures number { hall_number self.now.hall.no ≡ H }
        ensures sound { IsRecord self.now.hall }
        ensures most { self.now.live + self.now.retired ≤ 2 ^ 61 }
        ensures few { self.now.strays ≤ 1048576 }
    {
        self.hall.count()
    }

    /// Takes the part of a seat that is handed in.
    pub(crate) fn take_in(&mut self, part: Part<N, H>)
        ensures { self.new ≡ record self.old { live = self.old.live + part.calls } }
    {
        let Part {
            calls,
            seen: _,
            clients: _,
            share,
        } = part;
        let _steps = self.hall.count();
        self.pool.merge(share);
        self.calls.audit(&mut self.pool);
        self.live += calls;
    }
}

/// All four halls.
#[derive(Drop)]
pub(crate) struct AllClosed<N: Names> {
    /// The hall of the uids that 4 divides.
    pub(crate) zero: Closed<N, 0>,
    /// That of the uids with the remainder 1.
    pub(crate) one: Closed<N, 1>,
    /// That of the uids with the remainder 2.
    pub(crate) two: Closed<N, 2>,
    /// That of the uids with the remainder 3.
    pub(crate) three: Closed<N, 3>,
}

impl<N: Names> Model for AllClosed<N> {
    ghost use Rattle.rk_hall.specs.Closed.{FourShown, four_code};

    ghost Value = { FourShown };

    ghost coded = { four_code };

    ghost view = { λ k. record { zero = k.zero; one = k.one; two = k.two; three = k.three } };
}

impl<N: Names> AllClosed<N> {
    /// The halls, which no seat is handed in to yet.
    pub(crate) fn of(halls: Halls<N>) -> AllClosed<N>
        ensures { (result.zero.live ≡ 0) × (result.one.live ≡ 0) × (result.two.live ≡ 0) × (result.three.live ≡ 0) }
    {
        let Halls {
            zero,
            one,
            two,
            three,
        } = halls;
        AllClosed {
            zero: zero.close(),
            one: one.close(),
            two: two.close(),
            three: three.close(),
        }
    }

    /// Takes seats that are handed in.
    pub(crate) fn take_in(&mut self, seats: Vec<Seat<N>>)
        ensures { self.new ≡ with_seats self.old seats.items }
    {
        for seat in seats {
            let Seat {
                zero,
                one,
                two,
                three,
            } = seat;
            self.zero.take_in(zero);
            self.one.take_in(one);
            self.two.take_in(two);
            self.three.take_in(three);
        }
    }

    /// One of the halls.
    pub(crate) fn hall(&self, hall: HallNo) -> &Hall
        ensures { result.now ≡ (closed_of hall self.now).hall }
    {
        by_hall!(hall, HallNo, of_hall!(self.hall()))
    }
}
