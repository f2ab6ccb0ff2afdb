//! Who waits for a key is woken by each step that gives its outcome, in the hall of the key.
ghost use Rattle.rk_hall.specs.Seats.{IsCall};

use crate::answers::{Said, in_words};
use crate::asks::{CLIENT, NOW, OTHER, asked, asked_by, hello, joining, request};
use crate::fakes::turns::Turns;
use crate::halls::calls::{calls_in, fails, refuse_launch};
use crate::record::events::key;
use crate::same::same;
use crate::threads::opening::{Scene, in_new_halls};
use rk_hall::{Called, HallNo, Halls, Launch, Names, Owed, Running, Seat};
use rk_machine::{EventView, How, Ran};
use rk_message::AskView;
use rk_names::{Errno, KeyError, PayloadView, Serial, SessionId};
use rk_wait::await_outcome;
use std::alloc::Global;
use std::marker::{Send, Sync};
use std::process::Abort;
use std::sync::Wait;
use std::thread::{self, Threads, join};
use std::time::{Clock, Duration};

/// The turn from which on the key is under construction.
const REQUESTED: u64 = 1;

/// The turn from which on the client waits.
const WAITS: u64 = 2;

/// The turn from which on it has its outcome.
const TOLD: u64 = 3;

/// By which step a key gets its outcome.
#[derive(Clone, Copy)]
enum Step {
    /// Its handler gives it a payload.
    Instantiate,
    /// Its handler makes it negative.
    Negate,
    /// Its handler rejects it.
    Reject,
    /// Its handler can't be started.
    FailedStart,
    /// Its handler ends, and has not completed it.
    End,
}

impl Step {
    /// The ask by which its handler completes the key, if it does.
    fn ask(self, key: i32) -> Option<AskView<'static>> {
        match self {
            Step::Instantiate => Some(AskView::Instantiate {
                key,
                payload: PayloadView::new(b"v").ok()?,
                ring: 0,
            }),
            Step::Negate => Some(AskView::Negate {
                key,
                timeout: 30,
                ring: 0,
            }),
            Step::Reject => Some(AskView::Reject {
                key,
                timeout: 30,
                error: KeyError::Rejected,
                ring: 0,
            }),
            Step::FailedStart | Step::End => None,
        }
    }
}

/// Where a client waits.
#[derive(Clone, Copy)]
struct Place {
    /// The hall in which it waits.
    hall: HallNo,
    /// The key for which it waits. The hall draws its serial after those of the first client's two rings.
    key: u8,
}

impl Place {
    /// Where a client waits for this key: in the hall that draws it.
    fn of(key: u8) -> Place {
        Place {
            hall: HallNo::of_uid(u32::from(key)),
            key,
        }
    }

    fn key<R: Abort>(self, rt: &R) -> Serial {
        key(rt, u32::from(self.key))
    }

    /// The first client's session ring.
    fn ring<R: Abort>(self, rt: &R) -> Serial {
        key(rt, u32::from(self.key.saturating_sub(8)))
    }

    /// A call that begins no construction.
    fn calls<N: Names, R: Wait + Abort>(
        self,
        rt: &R,
        halls: &Halls<N>,
        seat: &mut Seat<N>,
        event: EventView<'_>,
    ) -> Said
        requires { IsCall event }
    {
        in_words(calls_in(rt, halls, seat, self.hall, event).answer())
    }

    /// The first client comes, says who it is, and requests the key `a`, whose construction begins.
    fn requests<N: Names, R: Wait + Abort>(
        self,
        rt: &R,
        halls: &Halls<N>,
        seat: &mut Seat<N>,
    ) -> Launch<N> {
        self.calls(rt, halls, seat, EventView::Opened(CLIENT));
        let hello = hello();
        self.calls(rt, halls, seat, asked(&hello));
        let ask = request(b"a").expect(rt, "an ask");
        let called = halls.call(rt, seat, self.hall, NOW, asked(&ask));
        let Called { receipt: _, launch } = called.expect(rt, "a receipt");
        launch.expect(rt, "a launch")
    }

    /// The handler of the key asks this, and it is done.
    fn asks<N: Names, R: Wait + Abort>(
        self,
        rt: &R,
        halls: &Halls<N>,
        seat: &mut Seat<N>,
        ask: AskView<'_>,
    ) {
        let handler = SessionId::Handler(self.key(rt));
        let said = self.calls(rt, halls, seat, asked_by(handler, &ask));
        same(rt, said, Said::Number(0));
    }

    /// The handler runs, and assumes its key.
    fn runs<N: Names, R: Wait + Abort>(
        self,
        rt: &R,
        halls: &Halls<N>,
        seat: &mut Seat<N>,
        launch: Launch<N>,
    ) -> Running<N> {
        let Owed { value, receipt } = halls.launched(rt, seat, NOW, launch, Ran::Plain);
        drop(receipt);
        let key = i32::from(self.key);
        self.asks(rt, halls, seat, AskView::Assume { key });
        value.expect(rt, "a handler that runs")
    }

    /// The other client joins the first one's session ring and requests the same key. What it is answered in the end.
    fn waits<N: Names, R: Wait + Abort + Clock>(
        self,
        rt: &R,
        halls: &Halls<N>,
        turns: &Turns,
    ) -> Said {
        let mut seat = halls.seat(rt).expect(rt, "a seat");
        turns.wait(REQUESTED);
        self.calls(rt, halls, &mut seat, EventView::Opened(OTHER));
        let joining = joining(self.ring(rt));
        self.calls(rt, halls, &mut seat, asked_by(OTHER, &joining));
        let ask = request(b"a").expect(rt, "an ask");
        let said = self.calls(rt, halls, &mut seat, asked_by(OTHER, &ask));
        same(rt, said, Said::Waiting(u32::from(self.key)));
        turns.next();
        let outcome = await_outcome(rt, halls, &mut seat, self.hall, OTHER, NOW);
        turns.next();
        in_words(&outcome.value)
    }
}

/// A client waits for a key on a thread of its own, until this step is done on another.
#[derive(Clone, Copy)]
pub struct Waking {
    /// In which hall, and for which key.
    place: Place,
    /// The step that completes the key, or ends its construction.
    step: Step,
    /// What the client is answered then.
    outcome: Said,
}

impl Waking {
    /// A wait that nobody ends would last for good.
    pub fn play<N: Names + Send + Sync, R: Wait + Abort + Threads + Clock + Sync>(
        self,
        rt: &R,
        alloc: Global,
        halls: Halls<N>,
    ) {
        let turns = Turns::new();
        let _ = alloc;
        let told = self.share(rt, &halls, &turns);
        same(rt, (told, turns.late()), (self.outcome, 0));
    }
}

impl Waking {
    /// Both threads, to their ends. What the client is answered.
    fn share<N: Names + Send + Sync, R: Wait + Abort + Threads + Clock + Sync>(
        self,
        rt: &R,
        halls: &Halls<N>,
        turns: &Turns,
    ) -> Said {
        // (that any struct may go to another thread has to be shown)
        let key = self.place.key;
        let (told, ()) = join(
            rt,
            move || Place::of(key).waits(rt, halls, turns),
            move || self.acts(rt, halls, turns),
        );
        told
    }

    /// The first client requests the key, and what is to be done for it is done when the other one waits.
    fn acts<N: Names, R: Wait + Abort + Clock>(self, rt: &R, halls: &Halls<N>, turns: &Turns) {
        let mut seat = halls.seat(rt).expect(rt, "a seat");
        let launch = self.place.requests(rt, halls, &mut seat);
        turns.next();
        if let Step::FailedStart = self.step {
            is_waited_for(rt, turns);
            drop(fails(rt, halls, &mut seat, launch));
        } else {
            let running = self.place.runs(rt, halls, &mut seat, launch);
            is_waited_for(rt, turns);
            let key = i32::from(self.place.key);
            if let Some(ask) = self.step.ask(key) {
                self.place.asks(rt, halls, &mut seat, ask);
                turns.wait(TOLD);
            }
            ends(rt, halls, &mut seat, running);
        }
    }
}

/// The handler ends.
fn ends<N: Names, R: Wait + Abort>(
    rt: &R,
    halls: &Halls<N>,
    seat: &mut Seat<N>,
    running: Running<N>,
) {
    let Owed { value, receipt } = halls.ended(rt, seat, NOW, running, How::Exit(0), None);
    drop(receipt);
    refuse_launch(rt, halls, seat, value);
}

/// Returns when the client waits, or is about to: a few milliseconds more, so that it is nearly always asleep and needs to be woken.
fn is_waited_for<R: Clock>(rt: &R, turns: &Turns) {
    turns.wait(WAITS);
    let _ = thread::sleep(rt, Duration::from_millis(20));
}

/// Each outcome in this hall, of this key.
fn each_outcome_in<R: Wait + Abort + Threads + Clock + Sync>(rt: &R, alloc: Global, place: Place) {
    let rows = [
        (Step::Instantiate, Said::Number(u32::from(place.key))),
        (Step::Negate, Said::Refused(Errno::Enokey)),
        (Step::Reject, Said::Refused(Errno::Ekeyrejected)),
        (Step::FailedStart, Said::Refused(Errno::Enokey)),
        (Step::End, Said::Refused(Errno::Enokey)),
    ];
    for (step, outcome) in rows {
        let waking = Waking {
            place,
            step,
            outcome,
        };
        in_new_halls(rt, alloc, Scene::Waking(waking));
    }
}

#[test]
fn each_outcome_wakes_who_waits(rt: HostRuntime) {
    for key in [12, 11] {
        each_outcome_in(&rt, rt.alloc(), Place::of(key));
    }
}
