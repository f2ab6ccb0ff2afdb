//! The steps of a client and of its piped handler, with their receipts.
use crate::answers::{Said, in_words};
use crate::asks::NOW;
use crate::halls::calls::{fails, kept};
use crate::same::same;
use rk_hall::{
    HallNo, Halls, Lapse, Launch, Names, Owed, Receipt, ReceiptView, Running, Seat, SettleFault,
    Total, Volume, settle,
};
use rk_machine::{How, Ran};
use rk_macro::Op;
use rk_names::{Errno, Payload, SessionId};
use rk_wait::await_outcome;
use std::alloc::Global;
use std::process::Abort;
use std::sync::Wait;

/// A client that is not there.
const NOBODY: SessionId = SessionId::Client(9);

/// The receipts say these answers.
pub fn say<R: Abort>(rt: &R, receipts: &[Receipt], answers: &[Said]) {
    same(rt, receipts.len(), answers.len());
    for (receipt, said) in receipts.iter().zip(answers) {
        same(rt, in_words(receipt.answer()), *said);
    }
}

/// So many steps, all of the seats that are handed in.
pub fn all(steps: u64) -> Total {
    Total {
        steps,
        live: steps,
        retired: 0,
        strays: 0,
    }
}

/// What the halls come to with these seats and receipts, where no volume was handed out.
pub fn settled<N: Names>(
    alloc: Global,
    halls: Halls<N>,
    seats: Vec<Seat<N>>,
    receipts: &[Receipt],
) -> Result<Total, SettleFault> {
    let none: Vec<Volume<N>> = Vec::new(alloc);
    settle(halls, &none, seats, receipts)
}

/// The records agree with all seats, and nothing was done where no client stood. How many steps there were.
pub fn settles<N: Names>(
    rt: &impl Abort,
    alloc: Global,
    halls: Halls<N>,
    seats: Vec<Seat<N>>,
) -> u64 {
    let total = settled(alloc, halls, seats, &[]).expect(rt, "a total");
    same(rt, total, all(total.live));
    total.steps
}

/// This client goes.
pub fn goes<N: Names, R: Wait + Abort>(
    rt: &R,
    halls: &Halls<N>,
    seat: &mut Seat<N>,
    receipts: &mut Vec<Receipt>,
    client: SessionId,
) {
    let Owed { value: (), receipt } = halls.gone(rt, seat, HallNo::Zero, NOW, client);
    keep(rt, receipts, receipt.expect(rt, "a receipt"));
}

/// Adds a copy of the receipt to those that are settled at the end. Out of memory ends the test.
pub fn keep<R: Abort>(rt: &R, receipts: &mut Vec<Receipt>, receipt: ReceiptView<'_>) {
    let alloc = *receipts.allocator();
    receipts.push(kept(rt, alloc, receipt)).expect(rt, "memory");
}

/// A client that is not there collects and goes. Both are strays: EINVAL, and no step.
pub fn strays<N: Names, R: Wait + Abort>(rt: &R, halls: &Halls<N>, seat: &mut Seat<N>) {
    let Owed { value, receipt } = await_outcome(rt, halls, seat, HallNo::Zero, NOBODY, NOW);
    same(rt, in_words(&value), Said::Refused(Errno::Einval));
    same(rt, receipt.err(), Some(Lapse::Stray));
    let Owed { value: (), receipt } = halls.gone(rt, seat, HallNo::Zero, NOW, NOBODY);
    same(rt, receipt.err(), Some(Lapse::Stray));
}

/// The piped handler of the first start, which runs.
pub fn runs<N: Names, R: Wait + Abort>(
    rt: &R,
    halls: &Halls<N>,
    seat: &mut Seat<N>,
    receipts: &mut Vec<Receipt>,
    launch: Launch<N>,
) -> Running<N> {
    same(rt, (launch.key().get(), launch.depth()), (12, 1));
    same(rt, launch.subject().op, Op::Create);
    let Owed { value, receipt } = halls.launched(rt, seat, NOW, launch, Ran::Piped);
    keep(rt, receipts, receipt.expect(rt, "a receipt"));
    value.expect(rt, "a handler that runs")
}

/// How a piped handler ends.
#[derive(Drop)]
pub struct End {
    /// By which status or signal.
    pub how: How,
    /// Its output.
    pub put_out: Payload,
}

/// The handler has ended, with this output. If it failed, another one is to follow.
pub fn ends<N: Names, R: Wait + Abort>(
    rt: &R,
    halls: &Halls<N>,
    seat: &mut Seat<N>,
    receipts: &mut Vec<Receipt>,
    running: Running<N>,
    end: End,
) -> Option<Launch<N>> {
    let End { how, put_out } = end;
    let Owed { value, receipt } = halls.ended(rt, seat, NOW, running, how, Some(put_out));
    keep(rt, receipts, receipt.expect(rt, "a receipt"));
    value
}

/// The outcome of this client.
pub fn collects<N: Names, R: Wait + Abort>(
    rt: &R,
    halls: &Halls<N>,
    seat: &mut Seat<N>,
    receipts: &mut Vec<Receipt>,
    client: SessionId,
) {
    let Owed { value, receipt } = await_outcome(rt, halls, seat, HallNo::Zero, client, NOW);
    let receipt = receipt.expect(rt, "a receipt");
    same(rt, in_words(&value), in_words(receipt.answer()));
    keep(rt, receipts, receipt);
}

/// There is to be another handler, which is to negate the key; it can't be started.
pub fn negates<N: Names, R: Wait + Abort>(
    rt: &R,
    halls: &Halls<N>,
    seat: &mut Seat<N>,
    receipts: &mut Vec<Receipt>,
    next: Option<Launch<N>>,
) {
    let launch = next.expect(rt, "another handler");
    same(rt, launch.key().get(), 12);
    same(rt, launch.subject().op, Op::Negate);
    keep(rt, receipts, fails(rt, halls, seat, launch));
}
