//! The right to start or end one construction.
ghost use Rattle.std.specs.Prelude.{◌≡◌};

use crate::names::{Names, Out};
use rk_names::Serial;
use std::sync::ledger::Share;

/// The right to say what becomes of one construction of hall `H`. There is one for each construction, and it can't be dropped: it is spent where the
/// hall takes the event.
pub(crate) struct Ticket<N: Names, const H: u64> {
    /// One part of the hall's ledger of tickets, with the amount 1.
    pub(crate) share: Share<Out<N, H>>,
    // It is one part, so that no two tickets are one.
    ghost part: { share.parts ≡ 1 },
    // It counts for one construction.
    ghost one: { share.amount ≡ 1 },
}

/// A construction of hall `H` to which a start or an end is due.
pub(crate) struct Due<N: Names, const H: u64> {
    /// The key to be made.
    pub(crate) key: Serial,
    /// The right to say what becomes of it.
    pub(crate) ticket: Ticket<N, H>,
}

/// A ticket of one of the four halls.
pub(crate) enum OneOfFour<A, B, C, D> {
    /// Of hall 0.
    Zero(A),
    /// Of hall 1.
    One(B),
    /// Of hall 2.
    Two(C),
    /// Of hall 3.
    Three(D),
}

/// A ticket of any hall.
pub(crate) type AnyTicket<N> = OneOfFour<Ticket<N, 0>, Ticket<N, 1>, Ticket<N, 2>, Ticket<N, 3>>;
