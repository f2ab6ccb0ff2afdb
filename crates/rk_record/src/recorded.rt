//! One step of a record.
use rk_machine::{Answer, Event};
use rk_names::Moment;

/// One step of a record.
#[derive(Debug, Drop)]
pub struct Recorded {
    /// The moment at which it was taken.
    pub now: Moment,
    /// What happened, with names and payloads of its own.
    pub event: Event,
    /// What was answered; never out of memory.
    pub answer: Answer,
}
