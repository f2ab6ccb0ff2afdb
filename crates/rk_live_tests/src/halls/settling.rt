//! Whether seats and receipts agree with the records, when all is over.
ghost use Rattle.rk_hall.specs.Seats.{IsCall};

use crate::asks::{CLIENT, NOW, add, asked, asked_by, hello, request};
use crate::halls::calls::{calls, calls_in, greets, kept, refuse_launch};
use crate::halls::opening::{Scene, in_new_halls};
use crate::halls::paths::{goes, keep, settled};
use crate::record::events::hall;
use crate::same::same;
use rk_hall::{
    CallFault, Called, Hall, HallNo, Halls, Lapse, Launch, Names, Owed, Receipt, Running, Seat,
    SettleFault, Total, Volume, settle,
};
use rk_machine::{EventView, How, Ran};
use rk_names::SessionId;
use std::alloc::Global;
use std::process::Abort;
use std::sync::Wait;

/// This client comes.
fn comes(client: u32) -> EventView<'static>
    ensures { IsCall result }
{
    EventView::Opened(SessionId::Client(client))
}

/// Three clients come at each of two seats, in turn.
fn six_calls<N: Names, R: Wait + Abort>(
    rt: &R,
    halls: &Halls<N>,
    one: &mut Seat<N>,
    two: &mut Seat<N>,
    receipts: &mut Vec<Receipt>,
) {
    for (first, second) in [(1, 2), (3, 4), (5, 6)] {
        keep(rt, receipts, calls(rt, halls, one, comes(first)));
        keep(rt, receipts, calls(rt, halls, two, comes(second)));
    }
}

/// A receipt of this number for this client, from a hall of its own: one that no hall of the test gave.
fn invented<R: Abort>(rt: &R, alloc: Global, number: u32, client: u32) -> Receipt {
    let mut hall = hall(rt, alloc, 100);
    let receipt = turned(rt, alloc, &mut hall, number, client);
    drop(hall);
    receipt
}

fn turned<R: Abort>(rt: &R, alloc: Global, hall: &mut Hall, number: u32, client: u32) -> Receipt {
    for other in 1..number {
        drop(hall.turn(NOW, comes(other)).expect(rt, "a receipt"));
    }
    let receipt = hall.turn(NOW, comes(client)).expect(rt, "a receipt");
    kept(rt, alloc, receipt)
}

/// A receipt that no hall of the scene gave, among those that they gave.
#[derive(Clone, Copy)]
struct Odd {
    /// Its number.
    number: u32,
    /// The client that it is of.
    client: u32,
    /// Its place among the receipts.
    at: usize,
    /// Whether it stands there in place of the one that was given.
    replaces: bool,
}

impl Odd {
    fn slips_in<R: Abort>(self, rt: &R, alloc: Global, receipts: &mut Vec<Receipt>) {
        let at = self.at.min(receipts.len());
        if self.replaces && at < receipts.len() {
            drop(receipts.remove(at));
        }
        let receipt = invented(rt, alloc, self.number, self.client);
        receipts.insert(at, receipt).expect(rt, "memory");
    }
}

/// Who is handed in of two seats.
#[derive(Clone, Copy)]
enum Handed {
    /// Both of them.
    Both,
    /// The first was given back before.
    OneRetired,
    /// The first is handed in nowhere.
    OneMissed,
}

/// Two seats make three calls each, and what `settle` makes of it.
#[derive(Drop)]
struct SixSteps {
    /// Which seats are handed in.
    handed: Handed,
    /// What slips in among the receipts, if anything does.
    odd: Option<Odd>,
    /// What the settlement is to say.
    wanted: Result<Total, SettleFault>,
}

impl Scene for SixSteps {
    fn play<N: Names, R: Wait + Abort + Copy>(&self, rt: &R, alloc: Global, halls: Halls<N>) {
        let mut one = halls.seat(rt).expect(rt, "a seat");
        let mut two = halls.seat(rt).expect(rt, "a seat");
        let mut receipts = Vec::new(alloc);
        six_calls(rt, &halls, &mut one, &mut two, &mut receipts);
        if let Some(odd) = self.odd {
            odd.slips_in(rt, alloc, &mut receipts);
        }
        let mut seats = Vec::new(alloc);
        match self.handed {
            Handed::Both => seats.push(one).expect(rt, "memory"),
            Handed::OneRetired => halls.retire(rt, one),
            Handed::OneMissed => drop(one),
        }
        seats.push(two).expect(rt, "memory");
        same(rt, settled(alloc, halls, seats, &receipts), self.wanted);
    }
}

/// So many steps: of the seats that are handed in, and of those that were given back.
fn total(live: u32, retired: u32) -> Total {
    let (live, retired) = (u64::from(live), u64::from(retired));
    Total {
        steps: live + retired,
        live,
        retired,
        strays: 0,
    }
}

/// One numbered 7, though there are six steps.
const SEVENTH: Odd = Odd {
    number: 7,
    client: 7,
    at: 6,
    replaces: false,
};

/// The second one, once more.
const SECOND: Odd = Odd {
    number: 2,
    client: 2,
    at: 1,
    replaces: false,
};

/// In place of the second, one of another event.
const OTHER_SECOND: Odd = Odd {
    client: 20,
    replaces: true,
    ..SECOND
};

/// Six steps, of which one seat made three.
const UNEVEN: SettleFault = SettleFault::Uneven { steps: 6, held: 3 };

/// The receipt of this number does not stand in hall 0.
fn forged(number: u64) -> SettleFault {
    SettleFault::Forged {
        hall: HallNo::Zero,
        number,
    }
}

/// A seat that makes no call, in halls without a step.
struct NoSteps;

impl Scene for NoSteps {
    fn play<N: Names, R: Wait + Abort + Copy>(&self, rt: &R, alloc: Global, halls: Halls<N>) {
        let seat = halls.seat(rt).expect(rt, "a seat");
        let seats = vec![in alloc; seat].expect(rt, "memory");
        same(rt, settled(alloc, halls, seats, &[]), Ok(total(0, 0)));
    }
}

#[test]
fn seats_and_receipts_are_settled(rt: HostRuntime) {
    in_new_halls(&rt, rt.alloc(), 100, &NoSteps);
    for (handed, odd, wanted) in [
        (Handed::Both, None, Ok(total(6, 0))),
        (Handed::OneRetired, None, Ok(total(3, 3))),
        (Handed::OneMissed, Some(SEVENTH), Err(UNEVEN)),
        (Handed::Both, Some(SEVENTH), Err(forged(7))),
        (Handed::Both, Some(SECOND), Err(forged(2))),
        (Handed::Both, Some(OTHER_SECOND), Err(forged(2))),
    ] {
        let steps = SixSteps {
            handed,
            odd,
            wanted,
        };
        in_new_halls(&rt, rt.alloc(), 100, &steps);
    }
}

/// Why a call is refused.
fn refused<N: Names, R: Wait + Abort>(
    rt: &R,
    halls: &Halls<N>,
    seat: &mut Seat<N>,
    event: EventView<'_>,
) -> Option<CallFault>
    requires { IsCall event }
{
    match halls.call(rt, seat, HallNo::Zero, NOW, event) {
        Ok(Called { receipt: _, launch }) => {
            refuse_launch(rt, halls, seat, launch);
            None
        }
        Err(fault) => Some(fault),
    }
}

/// Seats that have heard a receipt of another: the next number is above it, or there is no step. The records agree with the seats alone, too.
struct Hearing;

impl Scene for Hearing {
    fn play<N: Names, R: Wait + Abort + Copy>(&self, rt: &R, alloc: Global, halls: Halls<N>) {
        let mut one = halls.seat(rt).expect(rt, "a seat");
        let mut two = halls.seat(rt).expect(rt, "a seat");
        let mut receipts = Vec::new(alloc);
        six_calls(rt, &halls, &mut one, &mut two, &mut receipts);
        let three = hears_of_six(rt, &halls, &receipts);
        hears_of_nine(rt, alloc, &halls);
        let seats = vec![in alloc; one, two, three].expect(rt, "memory");
        same(rt, settled(alloc, halls, seats, &[]), Ok(total(7, 0)));
    }
}

/// A new seat that has heard the last of six receipts makes the seventh step. It comes back.
fn hears_of_six<N: Names, R: Wait + Abort>(
    rt: &R,
    halls: &Halls<N>,
    receipts: &[Receipt],
) -> Seat<N> {
    let mut seat = halls.seat(rt).expect(rt, "a seat");
    let sixth = receipts.last().expect(rt, "a receipt");
    seat.hear(sixth);
    let seventh = calls(rt, halls, &mut seat, comes(7));
    same(rt, (sixth.number(), seventh.number()), (6, 7));
    seat
}

/// A seat that has heard of nine steps, while there are seven, takes none.
fn hears_of_nine<N: Names, R: Wait + Abort>(rt: &R, alloc: Global, halls: &Halls<N>) {
    let mut seat = halls.seat(rt).expect(rt, "a seat");
    seat.hear(&invented(rt, alloc, 9, 9));
    let behind = refused(rt, halls, &mut seat, comes(8));
    same(rt, behind, Some(CallFault::Behind { seen: 9, found: 8 }));
    halls.retire(rt, seat);
}

/// A seat that has turns in each hall is given back: all of them stay counted.
struct FourHalls;

impl Scene for FourHalls {
    fn play<N: Names, R: Wait + Abort + Copy>(&self, rt: &R, alloc: Global, halls: Halls<N>) {
        let mut one = halls.seat(rt).expect(rt, "a seat");
        let mut two = halls.seat(rt).expect(rt, "a seat");
        for hall in HallNo::ALL {
            drop(calls_in(rt, &halls, &mut one, hall, comes(1)));
            drop(calls_in(rt, &halls, &mut one, hall, comes(2)));
            drop(calls_in(rt, &halls, &mut two, hall, comes(3)));
        }
        halls.retire(rt, one);
        let seats = vec![in alloc; two].expect(rt, "memory");
        same(rt, settled(alloc, halls, seats, &[]), Ok(total(4, 8)));
    }
}

#[test]
fn a_seat_is_given_back_in_each_hall(rt: HostRuntime) {
    in_new_halls(&rt, rt.alloc(), 100, &FourHalls);
}

#[test]
fn what_was_heard_is_passed(rt: HostRuntime) {
    in_new_halls(&rt, rt.alloc(), 100, &Hearing);
}

/// Five steps fill a volume of six, since the client's end is owed. The ADD that is refused is the sixth, in the next volume, and that end the seventh. A
/// receipt of the first volume wants it.
#[derive(Drop)]
struct Volumes {
    /// Whether the first volume is handed in; where its hall takes it back, a receipt of it is in no record.
    handed_in: bool,
}

impl Scene for Volumes {
    fn play<N: Names, R: Wait + Abort + Copy>(&self, rt: &R, alloc: Global, halls: Halls<N>) {
        let mut seat = halls.seat(rt).expect(rt, "a seat");
        let mut receipts = Vec::new(alloc);
        rolls_none(rt, &halls);
        fills(rt, alloc, &halls, &mut seat, &mut receipts);
        let volume = rolls(rt, &halls);
        let fourth = adds(rt, alloc, &halls, &mut seat, b"d");
        same(rt, (fourth.volume(), fourth.number()), (2, 6));
        receipts.push(fourth).expect(rt, "memory");
        goes(rt, &halls, &mut seat, &mut receipts, CLIENT);
        let seats = vec![in alloc; seat].expect(rt, "memory");
        let (volumes, wanted) = if self.handed_in {
            (vec![in alloc; volume].expect(rt, "memory"), Ok(total(7, 0)))
        } else {
            halls.take_back(rt, volume);
            (Vec::new(alloc), Err(MISSING))
        };
        same(rt, settle(halls, &volumes, seats, &receipts), wanted);
    }
}

const MISSING: SettleFault = SettleFault::Missing {
    hall: HallNo::Zero,
    volume: 1,
};

/// The client adds a key of this name.
fn adds<N: Names, R: Wait + Abort>(
    rt: &R,
    alloc: Global,
    halls: &Halls<N>,
    seat: &mut Seat<N>,
    name: &[u8],
) -> Receipt {
    let ask = add(name).expect(rt, "an ask");
    let receipt = calls(rt, halls, seat, asked(&ask));
    kept(rt, alloc, receipt)
}

/// The five steps; the fourth ADD is refused.
fn fills<N: Names, R: Wait + Abort>(
    rt: &R,
    alloc: Global,
    halls: &Halls<N>,
    seat: &mut Seat<N>,
    receipts: &mut Vec<Receipt>,
) {
    let (opened, rings) = greets(rt, alloc, halls, seat);
    receipts.push(opened).expect(rt, "memory");
    receipts.push(rings).expect(rt, "memory");
    for name in [b"a", b"b", b"c"] {
        let added = adds(rt, alloc, halls, seat, name);
        receipts.push(added).expect(rt, "memory");
    }
    let fourth = add(b"d").expect(rt, "an ask");
    same(
        rt,
        refused(rt, halls, seat, asked(&fourth)),
        Some(CallFault::Full),
    );
}

/// No volume of a hall that has places for any event.
fn rolls_none<N: Names, R: Wait + Abort>(rt: &R, halls: &Halls<N>) {
    let volume = halls.roll_full(rt, HallNo::Zero).expect(rt, "memory");
    same(rt, volume.is_none(), true);
}

/// The volume of the five steps.
fn rolls<N: Names, R: Wait + Abort>(rt: &R, halls: &Halls<N>) -> Volume<N> {
    let volume = halls.roll_full(rt, HallNo::Zero).expect(rt, "memory");
    let volume = volume.expect(rt, "a volume");
    same(
        rt,
        (volume.hall(), volume.index(), volume.before()),
        (HallNo::Zero, 1, 0),
    );
    same(rt, volume.steps().len(), 5);
    volume
}

#[test]
fn a_volume_that_was_handed_out_is_wanted(rt: HostRuntime) {
    for handed_in in [true, false] {
        in_new_halls(&rt, rt.alloc(), 6, &Volumes { handed_in });
    }
}

/// Three tokens go astray, in two halls: of 18 steps. What is not owed and has no token is no stray.
struct Astray;

impl Scene for Astray {
    fn play<N: Names, R: Wait + Abort + Copy>(&self, rt: &R, alloc: Global, halls: Halls<N>) {
        let mut seat = halls.seat(rt).expect(rt, "a seat");
        let mut receipts = Vec::new(alloc);
        for (hall, client) in [(HallNo::Zero, 1), (HallNo::Zero, 2), (HallNo::One, 1)] {
            let standing = Standing { hall, client };
            standing.plays(rt, &halls, &mut seat, &mut receipts);
        }
        let seats = vec![in alloc; seat].expect(rt, "memory");
        let wanted = Total {
            strays: 3,
            ..total(18, 0)
        };
        same(rt, settled(alloc, halls, seats, &receipts), Ok(wanted));
    }
}

/// A client, and where it stands.
#[derive(Drop)]
struct Standing {
    /// The hall of its uid.
    hall: HallNo,
    /// The number of its connection.
    client: u32,
}

impl Standing {
    /// It requests a key, whose token goes astray, and it goes: six steps.
    fn plays<N: Names, R: Wait + Abort>(
        &self,
        rt: &R,
        halls: &Halls<N>,
        seat: &mut Seat<N>,
        receipts: &mut Vec<Receipt>,
    ) {
        let launch = self.requests(rt, halls, seat, receipts);
        let next = is_followed(rt, halls, seat, receipts, launch);
        strays(rt, halls, seat, next);
        self.goes_twice(rt, halls, seat, receipts);
    }

    fn session(&self) -> SessionId {
        SessionId::Client(self.client)
    }

    /// It comes, says who it is, and requests a key: three steps.
    fn requests<N: Names, R: Wait + Abort>(
        &self,
        rt: &R,
        halls: &Halls<N>,
        seat: &mut Seat<N>,
        receipts: &mut Vec<Receipt>,
    ) -> Launch<N> {
        let coming = EventView::Opened(self.session());
        let opened = self.calls(rt, halls, seat, receipts, coming);
        refuse_launch(rt, halls, seat, opened);
        let hello = hello();
        let greeting = asked_by(self.session(), &hello);
        let greeted = self.calls(rt, halls, seat, receipts, greeting);
        refuse_launch(rt, halls, seat, greeted);
        let ask = request(b"a").expect(rt, "an ask");
        let asking = asked_by(self.session(), &ask);
        let begun = self.calls(rt, halls, seat, receipts, asking);
        begun.expect(rt, "a launch")
    }

    fn calls<N: Names, R: Wait + Abort>(
        &self,
        rt: &R,
        halls: &Halls<N>,
        seat: &mut Seat<N>,
        receipts: &mut Vec<Receipt>,
        event: EventView<'_>,
    ) -> Option<Launch<N>>
        requires { IsCall event }
    {
        let called = halls.call(rt, seat, self.hall, NOW, event);
        let Called { receipt, launch } = called.expect(rt, "a receipt");
        keep(rt, receipts, receipt);
        launch
    }

    /// It goes: one step. Then it collects and goes again, which is not owed.
    fn goes_twice<N: Names, R: Wait + Abort>(
        &self,
        rt: &R,
        halls: &Halls<N>,
        seat: &mut Seat<N>,
        receipts: &mut Vec<Receipt>,
    ) {
        let gone = halls.gone(rt, seat, self.hall, NOW, self.session());
        keep(rt, receipts, gone.receipt.expect(rt, "a receipt"));
        let collected = halls.collect(rt, seat, self.hall, NOW, self.session());
        same(rt, collected.receipt.err(), Some(Lapse::Stray));
        let again = halls.gone(rt, seat, self.hall, NOW, self.session());
        same(rt, again.receipt.err(), Some(Lapse::Stray));
    }
}

/// A piped handler runs, and exits with 1: two steps. Another one is to follow.
fn is_followed<N: Names, R: Wait + Abort>(
    rt: &R,
    halls: &Halls<N>,
    seat: &mut Seat<N>,
    receipts: &mut Vec<Receipt>,
    launch: Launch<N>,
) -> Launch<N> {
    let Owed { value, receipt } = halls.launched(rt, seat, NOW, launch, Ran::Piped);
    keep(rt, receipts, receipt.expect(rt, "a receipt"));
    let running = value.expect(rt, "a handler that runs");
    let Owed { value, receipt } = halls.ended(rt, seat, NOW, running, How::Exit(1), None);
    keep(rt, receipts, receipt.expect(rt, "a receipt"));
    value.expect(rt, "another handler")
}

/// It is said to be piped, which the second handler never is: no step, and its token is a stray.
fn strays<N: Names, R: Wait + Abort>(
    rt: &R,
    halls: &Halls<N>,
    seat: &mut Seat<N>,
    next: Launch<N>,
) {
    let Owed { value, receipt } = halls.launched(rt, seat, NOW, next, Ran::Piped);
    same(rt, receipt.err(), Some(Lapse::Stray));
    refuse_running(rt, halls, seat, value);
}

/// There is to be no handler that runs.
fn refuse_running<N: Names, R: Wait + Abort>(
    rt: &R,
    halls: &Halls<N>,
    seat: &mut Seat<N>,
    running: Option<Running<N>>,
) {
    if let Some(running) = running {
        let Owed { value, receipt } = halls.ended(rt, seat, NOW, running, How::Exit(0), None);
        drop(receipt);
        refuse_launch(rt, halls, seat, value);
        assert!(rt; false, "a handler that runs");
    }
}

#[test]
fn tokens_that_went_astray_are_counted(rt: HostRuntime) {
    in_new_halls(&rt, rt.alloc(), 100, &Astray);
}
