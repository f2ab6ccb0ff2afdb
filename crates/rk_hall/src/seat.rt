//! A seat: who makes calls, and what they have seen.
ghost use Rattle.std.specs.Prelude.{◌≡◌, ◌+◌};
ghost use Rattle.rk_hall.specs.Seats.{part, with_part, heard, clients_of};

use crate::four::{by_hall, in_all, of_hall};
use crate::names::Names;
use crate::part::Part;
use rk_record::{HallNo, ReceiptOf};
use std::marker::Model;

/// Who makes calls: one thread at a time. It has a part in each hall, with a share of the hall's record: the turns that it made there.
///
/// A seat works only with the `Halls` that made it. One that is neither given back nor handed to `settle` is missed there.
#[derive(Drop)]
pub struct Seat<N: Names> {
    /// The part in hall 0.
    pub(crate) zero: Part<N, 0>,
    /// The part in hall 1.
    pub(crate) one: Part<N, 1>,
    /// The part in hall 2.
    pub(crate) two: Part<N, 2>,
    /// The part in hall 3.
    pub(crate) three: Part<N, 3>,
}

impl<N: Names> Model for Seat<N> {
    ghost use Rattle.rk_hall.specs.Seats.{SeatShown};

    ghost Value = { SeatShown };

    ghost view = { λ s. record { zero = s.zero; one = s.one; two = s.two; three = s.three } };
}

impl<N: Names> Seat<N> {
    /// How many clients it has opened and not reported gone, in all halls. It takes no memory.
    pub fn clients(&self) -> u64
        ensures { result ≡ clients_of self.now }
    {
        in_all!(self.clients())
    }

    /// Counts the receipt's number as seen, in its hall: later calls there have greater numbers. It takes no memory.
    pub fn hear<A>(&mut self, receipt: &ReceiptOf<A>)
        ensures { self.new ≡ with_part receipt.now.hall self.old (heard (part receipt.now.hall self.old) receipt.now.number) }
    {
        let number = receipt.number();
        by_hall!(receipt.hall(), HallNo, of_hall!(self.hear(number)))
    }
}
