//! A turn of a hall: one step of its book, recorded.
ghost use Rattle.std.specs.Prelude.{if◌then◌else◌, ◌≡◌, ◌+◌, ◌-◌, ◌<◌, ◌≤◌, ◌↔◌, true, false, length, IfOk, IfSome, OnErr, OnOk, IsOk, Err};
ghost use Rattle.rk_machine.specs.Views.{is_owed};
ghost use Rattle.rk_machine.specs.Owing.{owed_to, ends_owed_to, need};
ghost use Rattle.rk_record.specs.Record.{IsRecord, IsFull};
ghost use Rattle.rk_record.specs.Turns.{Turned};
ghost use Rattle.rk_record.specs.Journal.{prepared, rooms_taken, rooms_made};
ghost use Rattle.rk_record.specs.Copies.{started, AreCopies, IsReady};

use crate::copies::{Copies, may_start, recorded_answer, started_subject};
use crate::fault::HallFault;
use crate::hall::Hall;
use crate::journal::Journal;
use crate::ready::{Ready, recorded_event};
use crate::receipt::ReceiptView;
use crate::recorded::Recorded;
use rk_core::{Book, SubjectCopies};
use rk_machine::{BoxedSubject, EventView};
use rk_names::{Moment, SessionId};

impl Hall {
    /// Takes one step of the book at this moment, and records it. The receipt says the step.
    ///
    /// [`HallFault::Full`] is returned exactly if an event that is not owed may need more places than are free: 2 for `Opened`, 6 for REQUEST, 1
    /// for any other. [`HallFault::NoMemory`] is returned if an allocation failed. Neither takes a step or changes anything, and neither is
    /// returned for what is owed, which takes no memory.
    pub fn turn<'a>(
        &mut self,
        now: Moment,
        event: EventView<'a>,
    ) -> Result<ReceiptView<'a>, HallFault>
        ensures ok { IfOk result (λ r. Turned self.old now event.entry r self.new) }
        ensures err { OnErr result (self.new ≡ self.old) }
        ensures sound { IsRecord self.new }
        ensures owed { is_owed self.old.world event.entry ≡ true → IsOk result }
        ensures full { (result ≡ Err HallFault.Full) ↔ IsFull self.old event.entry }
    {
        let copies = if self.book.owes(&event) {
            None
        } else {
            Copies::of(self.journal.alloc(), &event).ok()
        };
        match self.turn_to_start(now, event, copies) {
            Ok((receipt, _)) => Ok(receipt),
            Err(fault) => Err(fault),
        }
    }

    /// The same, with the subject of a start once more, for whoever starts the handler. The copies are of this event, so that they can be made before
    /// the hall is locked. If there are none, and the event is not owed, it is as if an allocation failed.
    #[inline(always)]
    pub fn turn_to_start<'a>(
        &mut self,
        now: Moment,
        event: EventView<'a>,
        copies: Option<Copies<'a>>,
    ) -> Result<(ReceiptView<'a>, Option<BoxedSubject>), HallFault>
        requires { IfSome copies (λ c. AreCopies event c) }
        ensures ok { IfOk result (λ r. Turned self.old now event.entry r.0 self.new) }
        ensures subject { IfOk result (λ r. r.1 ≡ started r.0.answer) }
        ensures err { OnErr result (self.new ≡ self.old) }
        ensures sound { IsRecord self.new }
        ensures owed { is_owed self.old.world event.entry ≡ true → IsOk result }
        ensures full { (result ≡ Err HallFault.Full) ↔ IsFull self.old event.entry }
    {
        let kept = Kept::of(&self.journal);
        let whose = event.whose();
        let asks = event.is_ask();
        let ready = prepare(&self.book, &mut self.journal, event, copies)?;
        let owed = Kept::owed_to(&self.book, &whose, asks, 0);
        let mut subjects = SubjectCopies::Wanted;
        let answer = self.book.step_to_start(now, ready.step, &mut subjects);
        let (recorded, started) = subjects.into_pair();
        let Some(copy) = recorded_answer(&answer, recorded) else {
            self.journal.keep(kept.places, kept.ends);
            return Err(HallFault::NoMemory);
        };
        let left = Kept::owed_to(&self.book, &whose, asks, answer.wait_owes());
        self.journal.push(Recorded {
            now,
            event: recorded_event(ready.copy),
            answer: copy,
        });
        self.journal.keep(
            kept.places + left.places + answer.start_owes() - owed.places,
            kept.ends + left.ends + answer.start_ends() - owed.ends,
        );
        let subject = started_subject(&answer, started);
        Ok((
            ReceiptView {
                hall: self.no,
                volume: self.index,
                number: self.before + self.journal.steps().len() as u64,
                moment: now,
                told: ready.told,
                answer,
            },
            subject,
        ))
    }
}

/// Places of a volume, and payloads for which there is room: those that are kept, or those that are owed to one session.
#[derive(Clone, Copy)]
struct Kept {
    /// How many places of the volume, each for one step.
    places: usize,
    /// How many payloads there is room for.
    ends: usize,
}

impl Kept {
    fn of(journal: &Journal) -> Kept
        ensures { (result.places ≡ journal.now.reserved) × (result.ends ≡ journal.now.ends) }
    {
        Kept {
            places: journal.reserved(),
            ends: journal.ends(),
        }
    }

    /// What is owed to a session, before a step or after it. An ask changes the places that are owed to whoever asks by its wait alone: so nothing is looked
    /// up for them, and only those for the wait are counted.
    #[inline(always)]
    fn owed_to(book: &Book, id: &SessionId, asks: bool, wait: usize) -> Kept
        ensures places { result.places ≡ (if asks then wait else owed_to book.now id.now) }
        ensures ends { result.ends ≡ ends_owed_to book.now id.now }
    {
        Kept {
            places: if asks { wait } else { book.owed_to(id) },
            ends: book.ends_owed_to(id),
        }
    }
}

/// Keeps the places that the steps of an event may need and room for the ends of what it may start. For what is owed both are kept already, and the payload
/// of an end is copied here, into that room. A refusal changes nothing.
#[inline(always)]
fn prepare<'a>(
    book: &Book,
    journal: &mut Journal,
    event: EventView<'a>,
    copies: Option<Copies<'a>>,
) -> Result<Ready<'a>, HallFault>
    requires given { IfSome copies (λ c. AreCopies event c) }
    requires room { is_owed book.now event ≡ true → rooms_taken event ≤ journal.old.ends }
    requires ends { journal.old.ends ≤ 1048576 }
    requires fits { length journal.old.steps + journal.old.reserved ≤ journal.old.places }
    ensures ready { IfOk result (λ r. IsReady event.entry r) }
    ensures journal { OnOk result (journal.new ≡ prepared (is_owed book.now event.entry) event.entry journal.old) }
    ensures fits { OnOk result (length journal.new.steps + journal.new.reserved ≤ journal.new.places) }
    ensures err { OnErr result (journal.new ≡ journal.old) }
    ensures owed { is_owed book.now event.entry ≡ true → IsOk result }
    ensures full { (result ≡ Err HallFault.Full) ↔ ((is_owed book.now event.entry ≡ false)
        × (journal.old.places - (length journal.old.steps + journal.old.reserved) < need event.entry)) }
{
    if book.owes(&event) {
        drop(copies);
        return Ok(Ready::owed(event, journal));
    }
    let Some(copies) = copies else {
        return Err(lacking(journal, &event));
    };
    match keep_for(journal, &event) {
        Ok(()) => Ok(Ready::of(event, copies)),
        Err(fault) => {
            drop(copies);
            Err(fault)
        }
    }
}

/// Why an event is refused for which there are no copies.
fn lacking(journal: &Journal, event: &EventView<'_>) -> HallFault
    ensures { (result ≡ HallFault.Full) ↔ (journal.now.places - (length journal.now.steps + journal.now.reserved) < need event.now) }
{
    if journal.free() < event.need() {
        HallFault::Full
    } else {
        HallFault::NoMemory
    }
}

/// Keeps the places that the steps of an event may need, which is not owed, and room for the ends of what it may start. A refusal changes nothing.
#[inline(always)]
fn keep_for(journal: &mut Journal, event: &EventView<'_>) -> Result<(), HallFault>
    requires { journal.old.ends ≤ 1048576 }
    ensures journal { OnOk result (journal.new ≡ prepared false event.now journal.old) }
    ensures err { OnErr result (journal.new ≡ journal.old) }
    ensures full { (result ≡ Err HallFault.Full) ↔ (journal.old.places - (length journal.old.steps + journal.old.reserved) < need event.now) }
{
    let kept = Kept::of(journal);
    journal.reserve(event.need())?;
    let ends = if may_start(event) { 2 } else { 0 };
    if journal.reserve_ends(ends).is_err() {
        journal.keep(kept.places, kept.ends);
        return Err(HallFault::NoMemory);
    }
    Ok(())
}
