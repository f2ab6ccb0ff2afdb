//! One hall under its lock.
//!
//! Who waits there for an outcome is woken by the steps that can give one alone: a completion, and the end of a construction. All other steps wake nobody,
//! so that many who wait cost the others nothing.
ghost use Rattle.std.specs.Prelude.{◌≡◌, ◌≢◌, ◌+◌, ◌*◌, ◌<◌, ◌≤◌, ◌^◌, is_some, not, IfOk, IfErr, OnErr, Ok, Err, Some, None, IfSome, MatchOption};
ghost use Rattle.rk_machine.specs.Owing.{is_followed};
ghost use Rattle.rk_record.specs.HallNumbers.{hall_number};
ghost use Rattle.rk_record.specs.Copies.{started};
ghost use Rattle.rk_record.specs.declared.told.ToldOf.TheVariants as told;
ghost use Rattle.rk_record.specs.declared.hall_no.HallNo.{HallNo};
ghost use Rattle.rk_hall.specs.Seats.{no_calls, after_call, CallRefused, runs_on, without_client, IsOutcomeOrNone, OwedPart};
ghost use Rattle.rk_hall.specs.Waking.{completes, has_completed};

use crate::closed::Closed;
use crate::counts::Counts;
use crate::end::End;
use crate::fresh::Ledgers;
use crate::hold::hold;
use crate::lapse::{CallFault, Lapse, Owed};
use crate::locked::{Begun, Locked};
use crate::names::Names;
use crate::opening::empty_hall;
use crate::part::Part;
use crate::ticket::{Due, Ticket};
use rk_machine::{Answer, EventOf, EventView, Ran};
use rk_message::{AskRef, AskView};
use rk_names::{Description, Errno, Moment, Serial, SessionId, TypeName};
use rk_record::{Copies, HallFault, HallNo, ReceiptView, Recorded, ToldView, Volume};
use std::alloc::{AllocError, Global};
use std::sync::{Condvar, Mutex, Wait};

/// Hall `H` under its lock, and who waits there for an outcome.
#[derive(Drop)]
pub(crate) struct Lock<N: Names, const H: u64> {
    /// What the lock keeps.
    pub(crate) locked: Mutex<Locked<N, H>>,
    /// Wakes those who wait for an outcome.
    pub(crate) told: Condvar,
    /// Where memory comes from.
    pub(crate) alloc: Global,
}

/// Whether it is an ask that completes a key: an INSTANTIATE, a NEGATE or a REJECT.
fn completes(ask: &AskView<'_>) -> bool
    ensures { result ≡ completes ask.now }
{
    matches!(
        ask,
        AskView::Instantiate { .. } | AskView::Negate { .. } | AskView::Reject { .. }
    )
}

/// Whether a call was such an ask, and was done: the key is complete, and those who wait for it have their outcome.
fn has_completed(receipt: &ReceiptView<'_>) -> bool
    ensures { result ≡ has_completed receipt.now }
{
    match (receipt.told(), receipt.answer()) {
        (ToldView::Asked(_, ask), Answer::Done(_)) => completes(ask.ask()),
        _ => false,
    }
}

/// Whether no ticket goes on: the construction has ended, and those who wait for its key have their outcome, its starter too.
fn is_over<N: Names, const H: u64>(owed: &Owed<Option<Ticket<N, H>>>) -> bool
    ensures { result ≡ not (is_some owed.now.value) }
{
    owed.value.is_none()
}

impl<N: Names, const H: u64> Lock<N, H> {
    /// A hall of this number without a step, under these ledgers.
    pub(crate) fn new(
        alloc: Global,
        no: HallNo,
        negative: u32,
        seed: u64,
        steps: usize,
        ledgers: Ledgers,
    ) -> Result<Lock<N, H>, AllocError>
        requires steps { (1 ≤ steps) × (steps ≤ 1048576) }
        requires number { hall_number no ≡ H }
        requires names { (ledgers.calls.name ≡ N.name (2 * H)) × (ledgers.out.name ≡ N.name (2 * H + 1)) }
    {
        let hall = empty_hall(alloc, no, negative, seed, steps)?;
        let locked = Locked::new(hall, ledgers.calls, ledgers.out);
        Ok(Lock {
            locked: Mutex::new(locked),
            told: Condvar::new(),
            alloc,
        })
    }

    /// A part of a new seat, for its turns in this hall. `None` once 4,294,967,295 are out.
    pub(crate) fn seat<R: Wait>(&self, rt: &R) -> Option<Part<N, H>>
        ensures { IfSome result (λ p. p ≡ no_calls) }
    {
        hold(&self.locked, rt).seat()
    }

    /// Takes the part of a seat back; its turns stay counted in the hall.
    pub(crate) fn retire<R: Wait>(&self, rt: &R, part: Part<N, H>) {
        hold(&self.locked, rt).retire(part);
    }

    /// A client comes, as one turn. It wakes nobody. An `Err` leaves the hall and the part as they were.
    pub(crate) fn open<'a, R: Wait>(
        &self,
        rt: &R,
        part: &mut Part<N, H>,
        now: Moment,
        session: SessionId,
    ) -> Result<(ReceiptView<'a>, Option<Begun<N, H>>), CallFault>
        ensures receipt { IfOk result (λ d. (hall_number d.0.hall ≡ H) × (d.0.moment ≡ now) × (d.0.told ≡ told.Opened session)
            × (d.0.answer ≢ Answer.Refused Errno.Enomem)) }
        ensures rising { IfOk result (λ d. part.old.seen < d.0.number) }
        ensures part { IfOk result (λ d. part.new ≡ after_call part.old (EventOf.Opened session) d.0) }
        ensures begun { IfOk result (λ d. MatchOption d.1 (started d.0.answer ≡ None) (λ b. d.0.answer ≡ Answer.Start b.key b.subject)) }
        ensures err { IfErr result (λ f. CallRefused part.old f) }
        ensures same { OnErr result (part.new ≡ part.old) }
    {
        let event = EventView::Opened(session);
        hold(&self.locked, rt).call(part, now, event, Some(Copies::Nothing))
    }

    /// A session asks, as one turn. What takes memory in the record's copy is copied before the lock is taken, since others wait for it. A completed key wakes
    /// those who wait for it. An `Err` leaves the hall and the part as they were.
    // (It is apart from `open`, so that it has one caller for each hall. LLVM inlines it there, though it is too large for `#[inline(always)]`.)
    pub(crate) fn ask<'a, R: Wait>(
        &self,
        rt: &R,
        part: &mut Part<N, H>,
        now: Moment,
        session: SessionId,
        ask: &'a AskView<'a>,
    ) -> Result<(ReceiptView<'a>, Option<Begun<N, H>>), CallFault>
        ensures receipt { IfOk result (λ d. (hall_number d.0.hall ≡ H) × (d.0.moment ≡ now) × (d.0.told ≡ told.Asked session ask.now)
            × (d.0.answer ≢ Answer.Refused Errno.Enomem)) }
        ensures rising { IfOk result (λ d. part.old.seen < d.0.number) }
        ensures part { IfOk result (λ d. part.new ≡ after_call part.old (EventOf.Asked session ask.now) d.0) }
        ensures begun { IfOk result (λ d. MatchOption d.1 (started d.0.answer ≡ None) (λ b. d.0.answer ≡ Answer.Start b.key b.subject)) }
        ensures err { IfErr result (λ f. CallRefused part.old f) }
        ensures same { OnErr result (part.new ≡ part.old) }
    {
        let event = EventView::Asked(session, AskRef::of(ask));
        let copies = Copies::of(self.alloc, &event).ok();
        let (receipt, begun) = hold(&self.locked, rt).call(part, now, event, copies)?;
        if has_completed(&receipt) {
            self.told.notify_all();
        }
        Ok((receipt, begun))
    }

    /// Whether the handler runs, as one turn. The ticket comes back while the construction goes on; if it has ended, those who wait wake.
    pub(crate) fn launched<R: Wait>(
        &self,
        rt: &R,
        part: &mut Part<N, H>,
        now: Moment,
        due: Due<N, H>,
        ran: Ran,
    ) -> Owed<Option<Ticket<N, H>>>
        ensures step { (hall : HallNo) → hall_number hall ≡ H → OwedPart hall now (EventOf.Launched due.key ran) part.old part.new result.receipt }
        ensures value { is_some result.value ≡ runs_on ran result.receipt }
    {
        let Due { key, ticket } = due;
        let owed = hold(&self.locked, rt).launched(part, now, key, ticket, ran);
        if is_over(&owed) {
            self.told.notify_all();
        }
        owed
    }

    /// How the handler has ended, as one turn. The ticket comes back if a `negate` handler is to follow; if not, those who wait wake.
    pub(crate) fn ended<R: Wait>(
        &self,
        rt: &R,
        part: &mut Part<N, H>,
        now: Moment,
        due: Due<N, H>,
        end: End,
    ) -> Owed<Option<Ticket<N, H>>>
        ensures step { (hall : HallNo) → hall_number hall ≡ H → OwedPart hall now (EventOf.Ended due.key end.how end.payload) part.old part.new result.receipt }
        ensures answer { IfOk result.receipt (λ r. is_some result.value ≡ is_followed r.answer) }
        ensures stray { result.receipt ≡ Err Lapse.Stray → result.value ≡ None }
    {
        let Due { key, ticket } = due;
        let owed = hold(&self.locked, rt).ended(part, now, key, ticket, end);
        if is_over(&owed) {
            self.told.notify_all();
        }
        owed
    }

    /// The session's outcome, or that it still waits, as one turn. It wakes nobody.
    pub(crate) fn collect<R: Wait>(
        &self,
        rt: &R,
        part: &mut Part<N, H>,
        now: Moment,
        session: SessionId,
    ) -> Owed<Answer>
        ensures step { (hall : HallNo) → hall_number hall ≡ H → OwedPart hall now (EventOf.Collect session) part.old part.new result.receipt }
        ensures value { IfOk result.receipt (λ r. r.answer ≡ result.value) }
        ensures outcome { IsOutcomeOrNone result.value }
        ensures stray { result.receipt ≡ Err Lapse.Stray → result.value ≡ Answer.Refused Errno.Einval }
    {
        hold(&self.locked, rt).collect(part, now, session)
    }

    /// The session has disconnected, as one turn: the hall forgets it, and what it waited for.
    pub(crate) fn gone<R: Wait>(
        &self,
        rt: &R,
        part: &mut Part<N, H>,
        now: Moment,
        session: SessionId,
    ) -> Owed<()>
        ensures { (hall : HallNo) → hall_number hall ≡ H → OwedPart hall now (EventOf.Gone session) (without_client part.old) part.new result.receipt }
    {
        hold(&self.locked, rt).gone(part, now, session)
    }

    /// Blocks the thread until the session waits for no key, or for one that has its outcome. It takes no turn.
    pub(crate) fn until_ready<R: Wait>(&self, rt: &R, session: SessionId) {
        let _locked = self.told.wait_while(
            rt,
            hold(&self.locked, rt),
            |locked| locked.is_held(&session),
        );
    }

    /// A copy of the payload that a `%{..}` of a command finds for the handler of this key; `None` if its search finds no key that stands Positive. It takes
    /// no turn.
    pub(crate) fn peek<R: Wait>(
        &self,
        rt: &R,
        key: Serial,
        typ: &TypeName,
        description: &Description,
        now: Moment,
    ) -> Result<Option<Vec<u8>>, AllocError> {
        hold(&self.locked, rt).peek(self.alloc, key, typ, description, now)
    }

    /// What the hall holds, and how often a quota has refused (EDQUOT).
    pub(crate) fn counts<R: Wait>(&self, rt: &R) -> Counts {
        hold(&self.locked, rt).counts()
    }

    /// The full volume, in exchange for an empty one that goes on from the hall's state. An `Err` leaves the hall as it was.
    pub(crate) fn roll<R: Wait>(&self, rt: &R) -> Result<Volume, HallFault>
        ensures { IfOk result (λ v. hall_number v.hall ≡ H) }
    {
        hold(&self.locked, rt).roll()
    }

    /// The same, unless there are places for any event.
    pub(crate) fn roll_full<R: Wait>(&self, rt: &R) -> Result<Option<Volume>, HallFault>
        ensures { IfOk result (λ found. IfSome found (λ v. hall_number v.hall ≡ H)) }
    {
        hold(&self.locked, rt).roll_full()
    }

    /// Keeps the memory of these steps for those of a volume to come. What was kept before is given back once other threads may have the hall.
    pub(crate) fn keep_memory<R: Wait>(&self, rt: &R, steps: Vec<Recorded>) {
        let before = hold(&self.locked, rt).keep_memory(steps);
        drop(before);
    }

    /// The hall, out of its lock.
    pub(crate) fn close(self) -> Closed<N, H>
        ensures { result.live ≡ 0 }
    {
        let Lock {
            locked,
            told: _,
            alloc: _,
        } = self;
        Closed::of(locked.into_inner())
    }
}
