//! A hall of a request_key daemon: its book, and the record of every step that the book takes.
//!
//! # Purpose
//!
//! A daemon has four halls, each with a book of its own. Whatever happens in a [`Hall`] is one [`Hall::turn`]: the book takes a step, and the
//! step is recorded with its moment, its event and its answer. Who asked for it gets a [`Receipt`], which only a turn makes. So whoever has the record
//! can tell at any time whether what was answered is what the machine allows.
//!
//! # What it promises
//!
//! A record is a run of the machine from the empty state on, which leads to the book's state and obeys the laws of every run. It has as many steps as
//! all volumes together. A turn records one step, changes the book by that step alone, and its receipt says the step; a fault does nothing. No step is
//! answered by out of memory.
//!
//! What the book owes is never refused: the launch and the end of a construction, the collect of a wait, the end of a client. From the moment on at
//! which it is owed, a place in the record and room for the payload of an end are kept. So an owed turn takes no memory. An event that is not owed is
//! refused as full exactly if it may need more places than are free.
//!
//! A record is cut into volumes. [`Hall::roll`] hands out the volume that is being recorded, with exactly its steps, and the next one opens in the
//! state in which this one closed. The numbers of the steps go on. So a run of as many steps as the volumes before it have leads to where a volume
//! opens. [`rejoin`] steps an empty book through volumes that are joined: where it answers
//! `Ok`, they are a run from the empty state on. The memory of a volume that is done with may go back to its hall ([`Hall::keep_memory`]), which
//! changes nothing that is seen.
//!
//! # Use
//!
//! Make a `Hall` with its limits and its number, and call `turn` with a moment and an event. Read the answer from the receipt, and keep the receipt
//! for as long as what it says is to be compared with the record.
//!
//! # How it is built
//!
//! `journal` has the steps of the volume that is being recorded, with the places and the room that are kept; `room` is room for one payload. `hall`
//! has the hall and what is only asked of it, `turn` its turns, `roll` its volumes. A turn asks the book before the step and after it what is owed to
//! the client or construction that the event is about, and keeps the difference; of an ask the answer says it. `copies` has what is copied of an event
//! before its step, and `ready` an event for which all memory is there. Of an event that is not owed the caller may make the [`Copies`] before the hall is
//! locked. A receipt borrows the ask ([`ReceiptView`]), and whoever keeps it copies it (`to_owned`). The copies of a start's subject, for the record and for
//! whoever launches the handler, are made by the step (`SubjectCopies` of rk_core). `recorded`, `told`, `receipt`, `volume` and `fault` have what is
//! recorded and handed out, `hall_no` the numbers of the halls, `joining` and `rejoin_fault` have `rejoin`.
//!
//! In `specs/`, `Record` says what a record is, `Turns` what one turn does, `Volumes` what a roll does and what breaks a run,
//! `HallNumbers` which hall has which number. `Copies` and `Journal` are of the way in which a hall does it. How what is owed changes by a
//! step is rk_machine's `Recording`.
#![tactic(auto)]

mod copies;
mod fault;
mod hall;
mod hall_no;
mod joining;
mod journal;
mod ready;
mod receipt;
mod recorded;
mod rejoin_fault;
mod roll;
mod room;
mod told;
mod turn;
mod volume;

pub use copies::Copies;
pub use fault::HallFault;
pub use hall::{Hall, MAX_STEPS};
pub use hall_no::HallNo;
pub use joining::rejoin;
pub use receipt::{Receipt, ReceiptOf, ReceiptView};
pub use recorded::Recorded;
pub use rejoin_fault::Rejoin;
pub use told::{Told, ToldOf, ToldView};
pub use volume::Volume;
