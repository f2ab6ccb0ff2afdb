//! A seat's part in one hall.
ghost use Rattle.std.specs.Prelude.{◌≡◌, ◌+◌, ◌-◌, ◌<◌, ◌≤◌, ◌^◌, IfOk, IfErr, Ok, Err, nat_lt, if◌then◌else◌};
ghost use Rattle.rk_hall.specs.Seats.{heard, without_client};
ghost use Rattle.rk_hall.specs.Locked.{Heard};

use crate::lapse::Lapse;
use crate::names::{Calls, Names};
use rk_record::ReceiptView;
use std::marker::Model;
use std::sync::ledger::Share;

/// A seat's part in hall `H`: its share of the record is the turns that it made.
#[derive(Drop)]
pub(crate) struct Part<N: Names, const H: u64> {
    /// How many turns it made, at most 2^61.
    pub(crate) calls: u64,
    /// The greatest number of a step that it has seen, 0 for none.
    pub(crate) seen: u64,
    /// How many clients it opened that were not reported gone, at most `calls`.
    pub(crate) clients: u64,
    /// Its share of the ledger of turns: `calls`.
    pub(crate) share: Share<Calls<N, H>>,
}

impl<N: Names, const H: u64> Model for Part<N, H> {
    ghost use Rattle.std.specs.Prelude.{◌≡◌, ◌≤◌, ◌^◌};
    ghost use Rattle.rk_hall.specs.Seats.{PartShown};

    ghost Value = { PartShown };

    ghost view = { λ p. record { calls = p.calls; seen = p.seen; clients = p.clients } };

    ghost invariant = { λ p. (p.share.parts ≡ 1) × (p.share.amount ≡ p.calls) × (p.clients ≤ p.calls) × (p.calls ≤ 2 ^ 61) };
}

impl<N: Names, const H: u64> Part<N, H> {
    /// The clients that it opened and that were not reported gone.
    pub(crate) fn clients(&self) -> u64
        ensures clients { result ≡ self.now.clients }
        ensures most { self.now.clients ≤ 2 ^ 61 }
    {
        self.clients
    }

    /// Counts a number as seen.
    pub(crate) fn hear(&mut self, number: u64)
        ensures { self.new ≡ heard self.old number }
    {
        if self.seen < number {
            self.seen = number;
        }
    }

    /// Reports a client gone.
    pub(crate) fn lose_client(&mut self)
        ensures { self.new ≡ without_client self.old }
    {
        self.clients = self.clients.saturating_sub(1);
    }

    /// Takes the receipt of a turn, whose number has to be above all that were seen.
    pub(crate) fn take<'a>(&mut self, receipt: ReceiptView<'a>) -> Result<ReceiptView<'a>, Lapse>
        ensures { Heard self.old receipt.entry self.new result }
    {
        let found = receipt.number();
        if found <= self.seen {
            return Err(Lapse::Behind {
                seen: self.seen,
                found,
            });
        }
        self.seen = found;
        Ok(receipt)
    }
}
