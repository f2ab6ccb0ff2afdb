//! What a turn hands back of its step.
ghost use Rattle.std.specs.Prelude.{◌≡◌, ◌↔◌, IsTrue, IfOk};
ghost use Rattle.rk_record.specs.Turns.{IsStepOf};

use crate::hall_no::HallNo;
use crate::recorded::Recorded;
use crate::told::ToldOf;
use rk_machine::Answer;
use rk_message::{Ask, AskRef};
use rk_names::Moment;
use std::alloc::{AllocError, Global};

/// What a turn handed back of its step, kept: an ask has names and a payload of its own.
pub type Receipt = ReceiptOf<Ask>;

/// What a turn hands back of its step: an ask is still borrowed from the bytes that say it.
pub type ReceiptView<'a> = ReceiptOf<AskRef<'a>>;

/// What a turn hands back of its step, with an ask `A`. Only a turn of a hall makes one.
#[derive(Debug, Drop)]
pub struct ReceiptOf<A> {
    /// The hall that took the turn.
    pub(crate) hall: HallNo,
    /// The volume that has the step, from 1.
    pub(crate) volume: u64,
    /// The number of the step, from 1.
    pub(crate) number: u64,
    /// The moment that was handed in.
    pub(crate) moment: Moment,
    /// The event that was handed in.
    pub(crate) told: ToldOf<A>,
    /// What it was answered.
    pub(crate) answer: Answer,
}

impl<A> ReceiptOf<A> {
    ghost use Rattle.std.specs.Prelude.{◌≡◌};

    /// The hall that took the turn.
    pub fn hall(&self) -> HallNo
        ensures { result ≡ self.now.hall }
    {
        self.hall
    }

    /// The volume that has its step, from 1.
    pub fn volume(&self) -> u64
        ensures { result ≡ self.now.volume }
    {
        self.volume
    }

    /// The number of its step, from 1; the numbers of a hall go on from volume to volume.
    pub fn number(&self) -> u64
        ensures { result ≡ self.now.number }
    {
        self.number
    }

    /// The moment that was handed in.
    pub fn now(&self) -> Moment
        ensures { result ≡ self.now.moment }
    {
        self.moment
    }

    /// The event that was handed in, of a payload its length alone.
    pub fn told(&self) -> &ToldOf<A>
        ensures { result.now ≡ self.now.told }
    {
        &self.told
    }

    /// What it was answered.
    pub fn answer(&self) -> &Answer
        ensures { result.now ≡ self.now.answer }
    {
        &self.answer
    }
}

impl<'a> ReceiptView<'a> {
    /// The same with copies of what it borrows, to be kept. An `Err` is out of memory.
    pub fn to_owned(&self, alloc: Global) -> Result<Receipt, AllocError>
        ensures { IfOk result (λ r. r ≡ self.now) }
    {
        Ok(Receipt {
            hall: self.hall,
            volume: self.volume,
            number: self.number,
            moment: self.moment,
            told: self.told.to_owned(alloc)?,
            answer: self.answer.clone()?,
        })
    }
}

impl Receipt {
    /// Whether it says what the step is: its moment, its event and its answer.
    pub fn is_of(&self, step: &Recorded) -> bool
        ensures { IsTrue result ↔ IsStepOf self.now step.entry.now }
    {
        step.now == self.moment && self.told.is_of(&step.event) && step.answer.equals(&self.answer)
    }
}
