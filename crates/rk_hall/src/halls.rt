//! Four halls that threads share.
ghost use Rattle.std.specs.Prelude.{◌≡◌, ◌≢◌, ◌↔◌, ◌+◌, ◌<◌, ◌≤◌, [], ℕ, true, is_some, IfOk, IfErr, OnErr, Ok, Err, Some, None, IfSome, MatchOption};
ghost use Rattle.std.specs.Prelude.{if◌then◌else◌};
ghost use Rattle.rk_machine.specs.Owing.{is_followed};
ghost use Rattle.rk_record.specs.Copies.{told_of, started};
ghost use Rattle.rk_record.specs.declared.told.ToldOf.TheVariants as told;
ghost use Rattle.rk_hall.specs.Seats.{new_seat, part, with_part, after_call, IsCall, IsCalled, HasLaunch, CallRefused, negated, runs_on, without_client, IsOutcomeOrNone};
ghost use Rattle.rk_hall.specs.Seats.{OwedPart, OwedSeen};

use crate::counts::Counts;
use crate::end::End;
use crate::four::{by_hall, of_hall, turn};
use crate::fresh::Fresh;
use crate::lapse::{CallFault, Lapse, Owed};
use crate::lock::Lock;
use crate::locked::Begun;
use crate::names::Names;
use crate::seat::Seat;
use crate::ticket::{Due, OneOfFour};
use crate::token::{Launch, Running};
use crate::volume::Volume;
use rk_machine::{Answer, EventOf, EventView, How, Ran};
use rk_message::AskView;
use rk_names::{Description, Errno, Moment, Payload, SessionId, TypeName};
use rk_record::{HallFault, HallNo, MAX_STEPS, ReceiptView, Recorded};
use std::alloc::{AllocError, Global};
use std::marker::PhantomData;
use std::sync::Wait;

/// So many steps are dropped at a time.
const BLOCK: usize = 256;

/// Four halls that threads share, each under a lock of its own. Every call is one turn of one hall under its lock, or none.
#[derive(Drop)]
pub struct Halls<N: Names> {
    /// Hall 0 under its lock.
    pub(crate) zero: Lock<N, 0>,
    /// Hall 1 under its lock.
    pub(crate) one: Lock<N, 1>,
    /// Hall 2 under its lock.
    pub(crate) two: Lock<N, 2>,
    /// Hall 3 under its lock.
    pub(crate) three: Lock<N, 3>,
}

/// What a call gives: its receipt, and a `Launch` where its answer is a start.
pub struct Called<'a, N: Names> {
    /// That of the step.
    pub receipt: ReceiptView<'a>,
    /// The construction to be started, where the step is answered so.
    pub launch: Option<Launch<N>>,
}

/// What a call of one hall gives, for a caller that knows of all halls.
macro_rules! called {
    ($hall:ident, $name:ident, $($call:tt)*) => {{
        let (receipt, begun) = turn!($hall, $name, $($call)*)?;
        let launch = match begun {
            None => None,
            Some(begun) => {
                let Begun {
                    key,
                    subject,
                    depth,
                    ticket,
                } = begun;
                Launch::due(key, subject, depth, OneOfFour::$name(ticket))
            }
        };
        Ok(Called { receipt, launch })
    }};
}

/// What a call of one hall gives for a construction, with a token of it that goes on where its ticket does.
macro_rules! goes_on {
    ($hall:ident, $name:ident, $token:ident($key:ident, $subject:ident, $depth:ident), $($call:tt)*) => {{
        let Owed { value, receipt } = turn!($hall, $name, $($call)*);
        let token = match value {
            None => None,
            Some(ticket) => Some($token {
                key: $key,
                subject: $subject,
                depth: $depth,
                ticket: OneOfFour::$name(ticket),
            }),
        };
        Owed {
            value: token,
            receipt,
        }
    }};
}

impl<N: Names> Halls<N> {
    /// Four halls without a step, with these ledgers. Each draws every fourth serial: hall 0 from 4 on, any other from its number on. For so many
    /// seconds a key is negative whose handler did not complete it. With the seed names are hashed: who does not know it can't choose names that make
    /// a search slow. An `Err` is out of memory.
    pub fn new(
        alloc: Global,
        fresh: Fresh,
        negative: u32,
        seed: u64,
    ) -> Result<Halls<N>, AllocError>
        requires zero { (fresh.zero.calls.name ≡ N.name 0) × (fresh.zero.out.name ≡ N.name 1) }
        requires one { (fresh.one.calls.name ≡ N.name 2) × (fresh.one.out.name ≡ N.name 3) }
        requires two { (fresh.two.calls.name ≡ N.name 4) × (fresh.two.out.name ≡ N.name 5) }
        requires three { (fresh.three.calls.name ≡ N.name 6) × (fresh.three.out.name ≡ N.name 7) }
    {
        Halls::with_volume(alloc, fresh, negative, seed, MAX_STEPS)
    }

    /// The same, with volumes of at most so many steps, at least 1 and at most 1,048,576.
    pub fn with_volume(
        alloc: Global,
        fresh: Fresh,
        negative: u32,
        seed: u64,
        steps: usize,
    ) -> Result<Halls<N>, AllocError>
        requires zero { (fresh.zero.calls.name ≡ N.name 0) × (fresh.zero.out.name ≡ N.name 1) }
        requires one { (fresh.one.calls.name ≡ N.name 2) × (fresh.one.out.name ≡ N.name 3) }
        requires two { (fresh.two.calls.name ≡ N.name 4) × (fresh.two.out.name ≡ N.name 5) }
        requires three { (fresh.three.calls.name ≡ N.name 6) × (fresh.three.out.name ≡ N.name 7) }
        requires steps { (1 ≤ steps) × (steps ≤ 1048576) }
    {
        let Fresh {
            zero,
            one,
            two,
            three,
        } = fresh;
        Ok(Halls {
            zero: Lock::new(alloc, HallNo::Zero, negative, seed, steps, zero)?,
            one: Lock::new(alloc, HallNo::One, negative, seed, steps, one)?,
            two: Lock::new(alloc, HallNo::Two, negative, seed, steps, two)?,
            three: Lock::new(alloc, HallNo::Three, negative, seed, steps, three)?,
        })
    }

    /// A seat that has made no call and seen nothing, `None` once 4,294,967,295 are out. It may wait, and takes no memory.
    pub fn seat<R: Wait>(&self, rt: &R) -> Option<Seat<N>>
        ensures { IfSome result (λ s. s ≡ new_seat) }
    {
        let zero = self.zero.seat(rt)?;
        let Some(one) = self.one.seat(rt) else {
            self.zero.retire(rt, zero);
            return None;
        };
        let Some(two) = self.two.seat(rt) else {
            self.zero.retire(rt, zero);
            self.one.retire(rt, one);
            return None;
        };
        let Some(three) = self.three.seat(rt) else {
            self.zero.retire(rt, zero);
            self.one.retire(rt, one);
            self.two.retire(rt, two);
            return None;
        };
        Some(Seat {
            zero,
            one,
            two,
            three,
        })
    }

    /// Gives a seat back: its turns stay counted. It may wait, and takes no memory.
    pub fn retire<R: Wait>(&self, rt: &R, seat: Seat<N>) {
        let Seat {
            zero,
            one,
            two,
            three,
        } = seat;
        self.zero.retire(rt, zero);
        self.one.retire(rt, one);
        self.two.retire(rt, two);
        self.three.retire(rt, three);
    }

    /// One call in one hall: a client that comes (`Opened`), as [`Halls::open`] takes it, or an ask, as [`Halls::ask`] does.
    ///
    /// The receipt is that of one step, with the moment and event that were handed in, and a number greater than all that the seat had seen in that
    /// hall. A `Launch` comes with it exactly where its answer is a start. The refusals, in this order, change nothing. `Behind` comes only where
    /// the number that the step would have is not above what the seat has seen. `Full` comes where an event may need more places than are free,
    /// `NoMemory` where an allocation failed. It may wait.
    pub fn call<'a, R: Wait>(
        &self,
        rt: &R,
        seat: &mut Seat<N>,
        hall: HallNo,
        now: Moment,
        event: EventView<'a>,
    ) -> Result<Called<'a, N>, CallFault>
        requires { IsCall event }
        ensures receipt { IfOk result (λ d. IsCalled hall now (told_of event.entry) (part hall seat.old) d.receipt) }
        ensures seat { IfOk result (λ d. seat.new ≡ with_part hall seat.old (after_call (part hall seat.old) event.entry d.receipt)) }
        ensures launch { IfOk result (λ d. HasLaunch hall d.receipt.answer d.launch) }
        ensures err { IfErr result (λ f. CallRefused (part hall seat.old) f) }
        ensures same { OnErr result (seat.new ≡ seat.old) }
    {
        match event {
            EventView::Opened(session) => self.open(rt, seat, hall, now, session),
            EventView::Asked(session, ask) => self.ask(rt, seat, hall, now, session, ask.ask()),
            _ => unreachable!(),
        }
    }

    /// A client comes, as one call in one hall (see [`Halls::call`]). It may wait.
    pub fn open<'a, R: Wait>(
        &self,
        rt: &R,
        seat: &mut Seat<N>,
        hall: HallNo,
        now: Moment,
        session: SessionId,
    ) -> Result<Called<'a, N>, CallFault>
        ensures receipt { IfOk result (λ d. IsCalled hall now (told.Opened session) (part hall seat.old) d.receipt) }
        ensures seat { IfOk result (λ d. seat.new ≡ with_part hall seat.old (after_call (part hall seat.old) (EventOf.Opened session) d.receipt)) }
        ensures launch { IfOk result (λ d. HasLaunch hall d.receipt.answer d.launch) }
        ensures err { IfErr result (λ f. CallRefused (part hall seat.old) f) }
        ensures same { OnErr result (seat.new ≡ seat.old) }
    {
        by_hall!(hall, HallNo, called!(self.open(rt, seat, now, session)))
    }

    /// A session asks, as one call in one hall (see [`Halls::call`]). It may wait.
    pub fn ask<'a, R: Wait>(
        &self,
        rt: &R,
        seat: &mut Seat<N>,
        hall: HallNo,
        now: Moment,
        session: SessionId,
        ask: &'a AskView<'a>,
    ) -> Result<Called<'a, N>, CallFault>
        ensures receipt { IfOk result (λ d. IsCalled hall now (told.Asked session ask.now) (part hall seat.old) d.receipt) }
        ensures seat { IfOk result (λ d. seat.new ≡ with_part hall seat.old (after_call (part hall seat.old) (EventOf.Asked session ask.now) d.receipt)) }
        ensures launch { IfOk result (λ d. HasLaunch hall d.receipt.answer d.launch) }
        ensures err { IfErr result (λ f. CallRefused (part hall seat.old) f) }
        ensures same { OnErr result (seat.new ≡ seat.old) }
    {
        by_hall!(hall, HallNo, called!(self.ask(rt, seat, now, session, ask)))
    }

    /// Says that the handler of a construction runs, or could not be started. It may wait, and takes no memory.
    ///
    /// Where the start is owed, the step is taken. The value is a `Running` where the handler runs, and `None` for `Failed` and where nothing is owed
    /// (`Stray`, which spends the `Launch` all the same).
    pub fn launched<R: Wait>(
        &self,
        rt: &R,
        seat: &mut Seat<N>,
        now: Moment,
        launch: Launch<N>,
        ran: Ran,
    ) -> Owed<Option<Running<N>>>
        ensures step { OwedSeen launch.hall now (EventOf.Launched launch.key ran) seat.old seat.new result.receipt }
        ensures value { result.value ≡ (if runs_on ran result.receipt then Some launch else None) }
    {
        let Launch {
            key,
            subject,
            depth,
            ticket,
        } = launch;
        by_hall!(
            ticket,
            OneOfFour(ticket),
            goes_on!(
                Running(key, subject, depth),
                self.launched(rt, seat, now, Due { key, ticket }, ran)
            )
        )
    }

    /// Says how a handler has ended, and what a piped one has output. It may wait, and takes no memory.
    ///
    /// Where the end is owed, the step is taken. The value is a `Launch` exactly where the answer is `Negate`: of the same construction, for the
    /// handler that says that the key can't be made. It is `None` where nothing is owed (`Stray`, which spends the `Running` all the same).
    pub fn ended<R: Wait>(
        &self,
        rt: &R,
        seat: &mut Seat<N>,
        now: Moment,
        running: Running<N>,
        how: How,
        payload: Option<Payload>,
    ) -> Owed<Option<Launch<N>>>
        ensures step { OwedSeen running.hall now (EventOf.Ended running.key how payload) seat.old seat.new result.receipt }
        ensures value { IfSome result.value (λ l. l ≡ negated running) }
        ensures answer { IfOk result.receipt (λ r. is_some result.value ≡ is_followed r.answer) }
        ensures stray { result.receipt ≡ Err Lapse.Stray → result.value ≡ None }
    {
        let Running {
            key,
            subject,
            depth,
            ticket,
        } = running;
        let subject = subject.negated();
        let end = End { how, payload };
        by_hall!(
            ticket,
            OneOfFour(ticket),
            goes_on!(
                Launch(key, subject, depth),
                self.ended(rt, seat, now, Due { key, ticket }, end)
            )
        )
    }

    /// Collects the outcome of a session's wait: its key's serial, or an error. `Refused(Einval)` with `Stray` where none may be collected. It may
    /// wait, and takes no memory.
    pub fn collect<R: Wait>(
        &self,
        rt: &R,
        seat: &mut Seat<N>,
        hall: HallNo,
        now: Moment,
        session: SessionId,
    ) -> Owed<Answer>
        ensures step { OwedSeen hall now (EventOf.Collect session) seat.old seat.new result.receipt }
        ensures value { IfOk result.receipt (λ r. r.answer ≡ result.value) }
        ensures outcome { IsOutcomeOrNone result.value }
        ensures stray { result.receipt ≡ Err Lapse.Stray → result.value ≡ Answer.Refused Errno.Einval }
    {
        by_hall!(hall, HallNo, turn!(self.collect(rt, seat, now, session)))
    }

    /// Says that a client is gone. The seat has one client fewer, also where nothing is owed. It may wait, and takes no memory.
    pub fn gone<R: Wait>(
        &self,
        rt: &R,
        seat: &mut Seat<N>,
        hall: HallNo,
        now: Moment,
        session: SessionId,
    ) -> Owed<()>
        ensures { OwedSeen hall now (EventOf.Gone session) (with_part hall seat.old (without_client (part hall seat.old))) seat.new result.receipt }
    {
        by_hall!(hall, HallNo, turn!(self.gone(rt, seat, now, session)))
    }

    /// Waits while the session has a wait that may not be collected yet. It takes no memory, and changes nothing.
    pub fn until_ready<R: Wait>(&self, rt: &R, hall: HallNo, session: SessionId) {
        by_hall!(hall, HallNo, of_hall!(self.until_ready(rt, session)))
    }

    /// The payload of the key that a search in the context of a construction's unspent authority hits, where it is Positive. It makes no step. An
    /// `Err` is out of memory for the copy. It may wait.
    pub fn peek<R: Wait>(
        &self,
        rt: &R,
        launch: &Launch<N>,
        typ: &TypeName,
        description: &Description,
        now: Moment,
    ) -> Result<Option<Vec<u8>>, AllocError> {
        let key = launch.key;
        by_hall!(
            &launch.ticket,
            OneOfFour(_),
            of_hall!(self.peek(rt, key, typ, description, now))
        )
    }

    /// How much there is in a hall at this moment: its keys and its constructions; and how many calls it has answered EDQUOT. It makes no step. It may
    /// wait, and takes no memory.
    pub fn counts<R: Wait>(&self, rt: &R, hall: HallNo) -> Counts {
        by_hall!(hall, HallNo, of_hall!(self.counts(rt)))
    }

    /// Hands out the volume that a hall was recording, and begins the next. Refused as `Hall::roll` is, with nothing changed. It may wait.
    pub fn roll<R: Wait>(&self, rt: &R, hall: HallNo) -> Result<Volume<N>, HallFault>
        ensures { IfOk result (λ v. v.hall ≡ hall) }
    {
        let volume = by_hall!(hall, HallNo, of_hall!(self.roll(rt)))?;
        Ok(Volume {
            volume,
            names: PhantomData,
        })
    }

    /// The same, where an event was refused as full. `None` where there are places for any event by now, since another thread has begun the next volume;
    /// then nothing changes.
    pub fn roll_full<R: Wait>(&self, rt: &R, hall: HallNo) -> Result<Option<Volume<N>>, HallFault>
        ensures { IfOk result (λ found. IfSome found (λ v. v.hall ≡ hall)) }
    {
        match by_hall!(hall, HallNo, of_hall!(self.roll_full(rt)))? {
            None => Ok(None),
            Some(volume) => Ok(Some(Volume {
                volume,
                names: PhantomData,
            })),
        }
    }

    /// Takes a volume back that is done with: its steps are dropped, and their memory is kept for those of a volume to come. So a step seldom touches
    /// memory for the first time, which takes longer than the step while others wait for the hall. It may wait.
    pub fn take_back<R: Wait>(&self, rt: &R, volume: Volume<N>) {
        let hall = volume.hall();
        let mut steps = volume.into_steps();
        drop_from_the_last(&mut steps);
        by_hall!(hall, HallNo, of_hall!(self.keep_memory(rt, steps)));
    }
}

/// Drops all steps, block by block. The last blocks go first, since of a volume only what was recorded last still lies in the processor's cache.
fn drop_from_the_last(steps: &mut Vec<Recorded>)
    ensures { steps.new.items ≡ [] }
{
    for blocks in (1..=steps.len() / BLOCK).rev() {
        steps.truncate(blocks * BLOCK);
    }
    steps.clear();
}
