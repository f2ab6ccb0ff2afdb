//! What is under the lock of a hall.
ghost use Rattle.std.specs.Prelude.{◌≢◌, ◌&&◌, not, ◌≡◌, ℕ, ◌+◌, ◌-◌, ◌*◌, ◌<◌, ◌≤◌, ◌↔◌, ◌^◌, true, is_some, length, IfOk, IfErr, OnErr, OnOk, Ok, Err};
ghost use Rattle.std.specs.Prelude.{Some, None, IfSome, IfNone, option_map, MatchOption};
ghost use Rattle.rk_machine.specs.Views.{is_owed, is_ready, has_wait, depth_of, Peeks};
ghost use Rattle.rk_machine.specs.Owing.{constructions, begun, is_followed};
ghost use Rattle.rk_machine.specs.Allowed.{done};
ghost use Rattle.rk_record.specs.HallNumbers.{hall_number};
ghost use Rattle.rk_record.specs.Record.{IsRecord, IsFull, free};
ghost use Rattle.rk_record.specs.Turns.{Turned};
ghost use Rattle.rk_record.specs.Copies.{started, AreCopies};
ghost use Rattle.rk_record.specs.Volumes.{volume_of, rolled, CannotRoll};
ghost use Rattle.rk_hall.specs.Seats.{no_calls, after_call, IsCall, runs_on, without_client, IsOutcomeOrNone, IsOutcome, IsDepth};
ghost use Rattle.rk_hall.specs.Locked.{taken, HasDepth, RefusedUnder, OwedTurn, IsOwedOr, strays_of, counted, counts_of};

use crate::counts::Counts;
use crate::end::End;
use crate::lapse::{CallFault, Lapse, Owed};
use crate::names::{Calls, Names, Out};
use crate::part::Part;
use crate::ticket::Ticket;
use rk_machine::{Answer, BoxedSubject, EventOf, EventView, Ran};
use rk_message::Reply;
use rk_names::{Description, Errno, Moment, Serial, SessionId, TypeName};
use rk_record::{Copies, Hall, HallFault, ReceiptView, Recorded, Volume};
use std::alloc::{AllocError, Global};
use std::marker::Model;
use std::sync::ledger::{Blank, Book, Share};

/// What is under the lock of hall `H`: the hall, and the books of its two ledgers. One counts its steps by the parts of seats that made them, the
/// other its constructions by the tickets that are out.
#[derive(Drop)]
pub(crate) struct Locked<N: Names, const H: u64> {
    /// Its book, with the record of its steps.
    pub(crate) hall: Hall,
    /// How many seats may still be made.
    pub(crate) left: u64,
    /// The turns of seats that were given back.
    pub(crate) retired: u64,
    /// The tickets that were spent though nothing was owed.
    pub(crate) strays: u64,
    /// The calls that were answered EDQUOT, at most the greatest u64.
    pub(crate) edquots: u64,
    /// The book of the ledger of turns.
    pub(crate) calls: Book<Calls<N, H>>,
    /// What the lock keeps of the ledger of turns: those of seats that were given back.
    pub(crate) pool: Share<Calls<N, H>>,
    /// The book of the ledger of tickets.
    pub(crate) out: Book<Out<N, H>>,
    /// What the lock keeps of the ledger of tickets: one for each stray.
    pub(crate) home: Share<Out<N, H>>,
}

impl<N: Names, const H: u64> Model for Locked<N, H> {
    ghost use Rattle.rk_hall.specs.Locked.{LockedShown, locked_code, IsLocked};

    ghost Value = { LockedShown };

    ghost coded = { locked_code };

    ghost view = { λ k. record { hall = k.hall; left = k.left; retired = k.retired; strays = k.strays; edquots = k.edquots } };

    ghost invariant = { λ k. IsLocked H k.hall k.left k.retired k.strays k.calls.total k.pool.parts k.pool.amount k.out.total k.home.parts k.home.amount };
}

/// A construction that a call has begun.
pub(crate) struct Begun<N: Names, const H: u64> {
    /// The key to be made.
    pub(crate) key: Serial,
    /// What the handler gets.
    pub(crate) subject: BoxedSubject,
    /// How many starts lead to it, 1 to 8.
    pub(crate) depth: u8,
    /// The right to say what becomes of it.
    pub(crate) ticket: Ticket<N, H>,
    // The depth is 1 to 8.
    ghost deep: { IsDepth depth },
}

impl<N: Names, const H: u64> Locked<N, H> {
    /// A hall of this number that has taken no step, under ledgers that nobody has a share of.
    pub(crate) fn new(hall: Hall, calls: Blank, out: Blank) -> Locked<N, H>
        requires calls { (calls.name ≡ N.name (2 * H)) × (calls.parts ≡ 4294967296) }
        requires out { (out.name ≡ N.name (2 * H + 1)) × (out.parts ≡ 4294967296) }
        requires number { hall_number hall.no ≡ H }
        requires steps { taken hall ≡ 0 }
        requires constructions { constructions hall.world ≡ 0 }
        ensures { result ≡ record { hall = hall; left = 4294967295; retired = 0; strays = 0; edquots = 0 } }
    {
        let (calls, pool) = calls.open::<Calls<N, H>>();
        let (out, home) = out.open::<Out<N, H>>();
        Locked {
            hall,
            left: 4_294_967_295,
            retired: 0,
            strays: 0,
            edquots: 0,
            calls,
            pool,
            out,
            home,
        }
    }

    /// A part of a new seat, `None` once 4,294,967,295 are out.
    pub(crate) fn seat(&mut self) -> Option<Part<N, H>>
        ensures some { IfSome result (λ p. (p ≡ no_calls) × (self.new ≡ record self.old { left = self.old.left - 1 })) }
        ensures none { IfNone result ((self.old.left ≡ 0) × (self.new ≡ self.old)) }
    {
        if self.left == 0 {
            return None;
        }
        self.left -= 1;
        let share = self.pool.split_off(1, 0);
        Some(Part {
            calls: 0,
            seen: 0,
            clients: 0,
            share,
        })
    }

    /// Takes the part of a seat back.
    pub(crate) fn retire(&mut self, part: Part<N, H>)
        ensures { self.new ≡ record self.old { left = self.old.left + 1; retired = self.old.retired + part.calls } }
    {
        let Part {
            calls,
            seen: _,
            clients: _,
            share,
        } = part;
        let _steps = self.hall.count();
        self.pool.merge(share);
        self.calls.audit(&mut self.pool);
        self.left += 1;
        self.retired += calls;
    }

    /// One call: a client that comes, or an ask. The copies are of this event.
    #[inline(always)]
    pub(crate) fn call<'a>(
        &mut self,
        part: &mut Part<N, H>,
        now: Moment,
        event: EventView<'a>,
        copies: Option<Copies<'a>>,
    ) -> Result<(ReceiptView<'a>, Option<Begun<N, H>>), CallFault>
        requires call { IsCall event }
        requires copies { IfSome copies (λ c. AreCopies event c) }
        ensures ok { IfOk result (λ d. Turned self.old.hall now event.entry d.0 self.new.hall) }
        ensures hall { IfOk result (λ d. hall_number d.0.hall ≡ H) }
        ensures rising { IfOk result (λ d. part.old.seen < d.0.number) }
        ensures part { IfOk result (λ d. part.new ≡ after_call part.old event.entry d.0) }
        ensures begun { IfOk result (λ d. MatchOption d.1 (started d.0.answer ≡ None)
            (λ b. (d.0.answer ≡ Answer.Start b.key b.subject) × (depth_of self.new.hall.world b.key ≡ Some b.depth))) }
        ensures kept { IfOk result (λ d. self.new ≡ record self.old { hall = self.new.hall; edquots = counted d.0.answer self.old.edquots }) }
        ensures err { IfErr result (λ f. RefusedUnder self.old.hall event.entry part.old f) }
        ensures full { (result ≡ Err CallFault.Full) ↔ ((part.old.seen ≤ taken self.old.hall) × IsFull self.old.hall event.entry) }
        ensures same { OnErr result ((self.new ≡ self.old) × (part.new ≡ part.old)) }
    {
        let found = self.hall.count() + 1;
        if found <= part.seen {
            drop(copies);
            return Err(CallFault::Behind {
                seen: part.seen,
                found,
            });
        }
        let opens = matches!(event, EventView::Opened(_));
        match self.hall.turn_to_start(now, event, copies) {
            Ok((receipt, subject)) => {
                let _steps = self.hall.count();
                self.calls.audit(&mut part.share);
                self.calls.add(&mut part.share, 1);
                part.calls += 1;
                part.seen = receipt.number();
                if opens && matches!(receipt.answer(), Answer::Done(_)) {
                    part.clients += 1;
                }
                let begun = begin(
                    &self.hall,
                    &mut self.out,
                    &mut self.home,
                    receipt.answer(),
                    subject,
                );
                count_edquot(&mut self.edquots, receipt.answer());
                Ok((receipt, begun))
            }
            Err(HallFault::Full) => Err(CallFault::Full),
            Err(HallFault::NoMemory) => Err(CallFault::NoMemory),
        }
    }

    /// Says what became of a start.
    pub(crate) fn launched(
        &mut self,
        part: &mut Part<N, H>,
        now: Moment,
        key: Serial,
        ticket: Ticket<N, H>,
        ran: Ran,
    ) -> Owed<Option<Ticket<N, H>>>
        ensures step { OwedTurn self.old.hall now (EventOf.Launched key ran) part.old part.new self.new.hall result.receipt (λ a. a ≡ done) }
        ensures value { is_some result.value ≡ runs_on ran result.receipt }
        ensures owed { IsOwedOr self.old.hall (EventOf.Launched key ran) result.receipt }
        ensures hall { IfOk result.receipt (λ r. hall_number r.hall ≡ H) }
        ensures kept { self.new ≡ record self.old { hall = self.new.hall; strays = self.old.strays + strays_of result.receipt } }
    {
        let event = EventView::Launched(key, ran);
        if !self.hall.owes(&event) {
            self.put_stray(ticket);
            return Owed {
                value: None,
                receipt: Err(Lapse::Stray),
            };
        }
        let receipt = turn_owed(&mut self.hall, &mut self.calls, part, now, event);
        let value = match ran {
            Ran::Plain | Ran::Piped => Some(ticket),
            Ran::Failed => {
                spend(&mut self.out, &mut self.home, ticket);
                None
            }
        };
        Owed {
            value,
            receipt: part.take(receipt),
        }
    }

    /// Says how a handler ended. The ticket goes on if another handler is to be started.
    pub(crate) fn ended(
        &mut self,
        part: &mut Part<N, H>,
        now: Moment,
        key: Serial,
        ticket: Ticket<N, H>,
        end: End,
    ) -> Owed<Option<Ticket<N, H>>>
        ensures step { OwedTurn self.old.hall now (EventOf.Ended key end.how end.payload) part.old part.new self.new.hall result.receipt
            (λ a. is_some result.value ≡ is_followed a) }
        ensures stray { result.receipt ≡ Err Lapse.Stray → result.value ≡ None }
        ensures owed { IsOwedOr self.old.hall (EventOf.Ended key end.how end.payload) result.receipt }
        ensures hall { IfOk result.receipt (λ r. hall_number r.hall ≡ H) }
        ensures kept { self.new ≡ record self.old { hall = self.new.hall; strays = self.old.strays + strays_of result.receipt } }
    {
        let End { how, payload } = end;
        let event = EventView::Ended(key, how, payload);
        if !self.hall.owes(&event) {
            self.put_stray(ticket);
            return Owed {
                value: None,
                receipt: Err(Lapse::Stray),
            };
        }
        let receipt = turn_owed(&mut self.hall, &mut self.calls, part, now, event);
        let value = if matches!(receipt.answer(), Answer::Negate(_)) {
            Some(ticket)
        } else {
            spend(&mut self.out, &mut self.home, ticket);
            None
        };
        Owed {
            value,
            receipt: part.take(receipt),
        }
    }

    /// Collects the outcome of a wait, `Refused(Einval)` if none is there.
    pub(crate) fn collect(
        &mut self,
        part: &mut Part<N, H>,
        now: Moment,
        session: SessionId,
    ) -> Owed<Answer>
        ensures step { OwedTurn self.old.hall now (EventOf.Collect session) part.old part.new self.new.hall result.receipt (λ a. a ≡ result.value) }
        ensures outcome { IsOutcomeOrNone result.value }
        ensures stray { result.receipt ≡ Err Lapse.Stray → result.value ≡ Answer.Refused Errno.Einval }
        ensures owed { IsOwedOr self.old.hall (EventOf.Collect session) result.receipt }
        ensures hall { IfOk result.receipt (λ r. hall_number r.hall ≡ H) }
        ensures kept { self.new ≡ record self.old { hall = self.new.hall } }
    {
        let event = EventView::Collect(session);
        if !self.hall.owes(&event) {
            return Owed {
                value: Answer::Refused(Errno::Einval),
                receipt: Err(Lapse::Stray),
            };
        }
        let receipt = turn_owed(&mut self.hall, &mut self.calls, part, now, event);
        let value = outcome_copy(receipt.answer());
        Owed {
            value,
            receipt: part.take(receipt),
        }
    }

    /// Says that a client is gone.
    pub(crate) fn gone(
        &mut self,
        part: &mut Part<N, H>,
        now: Moment,
        session: SessionId,
    ) -> Owed<()>
        ensures step { OwedTurn self.old.hall now (EventOf.Gone session) (without_client part.old) part.new self.new.hall result.receipt (λ a. a ≡ done) }
        ensures owed { IsOwedOr self.old.hall (EventOf.Gone session) result.receipt }
        ensures hall { IfOk result.receipt (λ r. hall_number r.hall ≡ H) }
        ensures kept { self.new ≡ record self.old { hall = self.new.hall } }
    {
        part.lose_client();
        let event = EventView::Gone(session);
        if !self.hall.owes(&event) {
            return Owed {
                value: (),
                receipt: Err(Lapse::Stray),
            };
        }
        let receipt = turn_owed(&mut self.hall, &mut self.calls, part, now, event);
        Owed {
            value: (),
            receipt: part.take(receipt),
        }
    }

    /// Whether the session waits for what is not ready.
    pub(crate) fn is_held(&self, session: &SessionId) -> bool
        ensures { result ≡ (has_wait self.now.hall.world session.now && not (is_ready self.now.hall.world session.now)) }
    {
        self.hall.waits(session) && !self.hall.ready(session)
    }

    /// A copy of the payload of the key that a search hits, where it is Positive, in the context of a key's unspent authority.
    pub(crate) fn peek(
        &self,
        alloc: Global,
        key: Serial,
        typ: &TypeName,
        description: &Description,
        now: Moment,
    ) -> Result<Option<Vec<u8>>, AllocError>
        ensures { IfOk result (λ seen. Peeks self.now.hall.world key typ.now description.now now (option_map (λ bytes. bytes.items) seen)) }
    {
        match self.hall.peek(key, typ, description, now) {
            None => Ok(None),
            Some(bytes) => Ok(Some(Vec::from_slice(alloc, bytes)?)),
        }
    }

    /// How much there is at this moment.
    pub(crate) fn counts(&self) -> Counts
        ensures { result ≡ counts_of self.now }
    {
        Counts {
            keys: self.hall.keys() as u64,
            constructions: self.hall.constructions() as u64,
            edquots: self.edquots,
        }
    }

    /// Hands out the volume that was being recorded, and begins the next.
    pub(crate) fn roll(&mut self) -> Result<Volume, HallFault>
        ensures ok { IfOk result (λ v. (v ≡ volume_of self.old.hall) × (self.new ≡ record self.old { hall = rolled self.old.hall })) }
        ensures hall { IfOk result (λ v. hall_number v.hall ≡ H) }
        ensures err { OnErr result (self.new ≡ self.old) }
        ensures full { (result ≡ Err HallFault.Full) ↔ CannotRoll self.old.hall }
    {
        self.hall.roll()
    }

    /// The same, unless there are places for any event: then another has begun a volume, and nothing changes.
    pub(crate) fn roll_full(&mut self) -> Result<Option<Volume>, HallFault>
        ensures ok { IfOk result (λ found. MatchOption found ((6 ≤ free self.old.hall) × (self.new ≡ self.old))
            (λ v. (free self.old.hall < 6) × (v ≡ volume_of self.old.hall) × (self.new ≡ record self.old { hall = rolled self.old.hall }))) }
        ensures hall { IfOk result (λ found. IfSome found (λ v. hall_number v.hall ≡ H)) }
        ensures err { OnErr result (self.new ≡ self.old) }
    {
        if self.hall.has_places() {
            return Ok(None);
        }
        Ok(Some(self.roll()?))
    }

    /// Keeps the memory of these steps for those of a volume to come, and returns that which was kept before.
    pub(crate) fn keep_memory(&mut self, steps: Vec<Recorded>) -> Vec<Recorded>
        ensures { self.new ≡ self.old }
    {
        self.hall.keep_memory(steps)
    }

    /// Takes a ticket back for which nothing is owed.
    fn put_stray(&mut self, ticket: Ticket<N, H>)
        ensures { self.new ≡ record self.old { strays = self.old.strays + 1 } }
    {
        let Ticket { share } = ticket;
        let _steps = self.hall.count();
        self.home.merge(share);
        self.out.audit(&mut self.home);
        self.strays += 1;
    }
}

/// Counts an answer that is EDQUOT.
fn count_edquot(edquots: &mut u64, answer: &Answer)
    ensures { edquots.new ≡ counted answer.now edquots.old }
{
    if let Answer::Refused(Errno::Edquot) = answer {
        *edquots = edquots.saturating_add(1);
    }
}

/// What a call has begun: a ticket, where its answer is a start.
#[tactic(auto, using(crate::proofs::Starts::none_begun))]
fn begin<N: Names, const H: u64>(
    hall: &Hall,
    out: &mut Book<Out<N, H>>,
    home: &mut Share<Out<N, H>>,
    answer: &Answer,
    subject: Option<BoxedSubject>,
) -> Option<Begun<N, H>>
    requires subject { subject ≡ started answer.now }
    requires depth { HasDepth answer.now hall.now.world }
    requires parts { 1 < home.old.parts }
    ensures begun { MatchOption result (started answer.now ≡ None)
        (λ b. (answer.now ≡ Answer.Start b.key b.subject) × (depth_of hall.now.world b.key ≡ Some b.depth)) }
    ensures out { out.new.total ≡ out.old.total + begun answer.now }
    ensures parts { home.new.parts + begun answer.now ≡ home.old.parts }
    ensures amount { home.new.amount ≡ home.old.amount }
{
    let subject = subject?;
    let Answer::Start(key, _) = answer else {
        unreachable!()
    };
    let Some(depth) = hall.depth(*key) else {
        unreachable!()
    };
    out.add(home, 1);
    let share = home.split_off(1, 1);
    Some(Begun {
        key: *key,
        subject,
        depth,
        ticket: Ticket { share },
    })
}

/// Takes the ticket of a construction back that has ended.
fn spend<N: Names, const H: u64>(
    out: &mut Book<Out<N, H>>,
    home: &mut Share<Out<N, H>>,
    ticket: Ticket<N, H>,
)
    ensures out { out.new.total + 1 ≡ out.old.total }
    ensures parts { home.new.parts ≡ home.old.parts + 1 }
    ensures amount { home.new.amount ≡ home.old.amount }
{
    let Ticket { share } = ticket;
    home.merge(share);
    out.sub(home, 1);
}

/// A turn of what is owed, counted to the part.
#[inline(never)]
fn turn_owed<N: Names, const H: u64>(
    hall: &mut Hall,
    calls: &mut Book<Calls<N, H>>,
    part: &mut Part<N, H>,
    now: Moment,
    event: EventView<'static>,
) -> ReceiptView<'static>
    requires owed { is_owed hall.old.world event ≡ true }
    requires counted { calls.old.total ≡ taken hall.old }
    ensures turned { Turned hall.old now event.entry result hall.new }
    ensures part { part.new ≡ record part.old { calls = part.old.calls + 1 } }
    ensures counted { calls.new.total ≡ taken hall.new }
{
    match hall.turn_to_start(now, event, None) {
        Ok((receipt, _)) => {
            let _steps = hall.count();
            calls.audit(&mut part.share);
            calls.add(&mut part.share, 1);
            part.calls += 1;
            receipt
        }
        Err(_) => unreachable!(),
    }
}

/// A copy of an outcome. It takes no memory.
fn outcome_copy(answer: &Answer) -> Answer
    requires { IsOutcome answer.now }
    ensures { result ≡ answer.now }
{
    match answer {
        Answer::Done(Reply::Number(number)) => Answer::Done(Reply::Number(*number)),
        Answer::Refused(errno) => Answer::Refused(*errno),
        _ => unreachable!(),
    }
}
