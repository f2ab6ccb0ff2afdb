//! The halls of a request_key daemon, which threads share.
//!
//! # Purpose
//!
//! A daemon has four halls, each a book with the record of its steps (rk_record) under a lock of its own. Threads make calls on [`Halls`]: each is one
//! turn of one hall under its lock. Who calls has a [`Seat`], which counts what it did and remembers what it has seen. A start hands out a [`Launch`],
//! and a handler that was started is a [`Running`]: neither can be dropped, so that each construction is brought to its end.
//!
//! # What it promises
//!
//! A receipt is that of one step, with the moment and the event that were handed in. Its number is greater than all that the seat had seen in that
//! hall, in its own receipts or by [`Seat::hear`]. The seat's turns are one more. A call that is refused changes nothing. What is owed is never
//! refused: its step is taken wherever the locked hall owes it, also if the seat has seen a greater number (`Behind`). If the hall owes nothing
//! there is no step, the answer is `Stray`, and the token is spent and counted. `Behind` never comes to a seat that has seen nothing.
//!
//! *No orphan.* A `Launch` comes only from a call that is answered by a start, or from the end of a piped handler that another handler follows. It is
//! spent only by [`Halls::launched`], and a `Running` only by [`Halls::ended`]. Under each lock there are as many constructions as tokens that are
//! out and strays. The steps are as many as the turns of all seats, those that were given back counted too.
//!
//! *Receipts.* When all is over, [`settle`] compares the records with the seats and with the receipts that their calls returned. It answers `Ok`
//! exactly if the turns of the seats are all steps, and every receipt stands in the record of its hall, by rising number. Else it names what is
//! missed, or the first receipt at fault. The records are those that stand under the locks then. No contract sees what a lock keeps, so no proof says
//! that they are the records of the calls before, nor that all strays are counted: tests compare both. Whatever the records are, the live turns are
//! those of the seats, receipts rise, and a fault names a receipt that was handed in.
//!
//! A seat, a token or a volume works only with the `Halls` that made it, by its type. Not promised: that a lock is ever got, that a waiter wakes, and
//! any order between threads beyond the numbers. That each step which gives an outcome wakes those who wait for it is tried by tests.
//!
//! # Use
//!
//! Make [`Fresh`] ledgers, name them by a type, and make a `Halls` of them. Each thread takes a seat, calls, and gives the seat back. Where a call is
//! refused as `Full`, [`Halls::roll_full`] hands out a volume, and [`Halls::take_back`] takes it back once it has been read.
//!
//! # How it is built
//!
//! `names` and `fresh` have the ledgers of a `Halls`. `part` is a seat's part in one hall, `ticket` the right to say what becomes of one construction: each
//! has a share of a ledger. `opening` makes a hall without a step. `locked` is what is under the lock of a hall, with the whole contract of each call, `lock`
//! takes the lock as `hold` does, and `halls` chooses the hall, by the macros of `four`. `seat` and `token` have what callers hold, `volume` a volume that was handed out,
//! `end` how a handler has ended, `lapse` why there is no receipt, `counts` how much there is in a hall. `closed` is a hall that was taken out of its lock,
//! `genuine` looks for receipts in it, and `settling` puts the four together.
//!
//! In `specs/`, `Seats` says what a call does to a seat, and `Locked` what the lock keeps and what a call does under it. `Tickets` says of which hall
//! a ticket is, `Closed` what is known of a hall without its lock, `Settle` what a settlement answers, and `Waking` which calls give those who wait
//! their outcome.
#![tactic(auto)]

mod closed;
mod counts;
mod end;
mod four;
mod fresh;
mod genuine;
mod halls;
mod hold;
mod lapse;
mod lock;
mod locked;
mod names;
mod opening;
mod part;
mod seat;
mod settling;
mod ticket;
mod token;
mod volume;

pub use counts::Counts;
pub use fresh::{Fresh, Ledgers};
pub use halls::{Called, Halls};
pub use lapse::{CallFault, Lapse, Owed};
pub use names::{Calls, Names, Out};
pub use rk_record::{
    Hall, HallFault, HallNo, Receipt, ReceiptOf, ReceiptView, Recorded, Rejoin, Told, ToldOf,
    ToldView, rejoin,
};
pub use seat::Seat;
pub use settling::{SettleFault, Total, settle};
pub use token::{Launch, Running};
pub use volume::Volume;
