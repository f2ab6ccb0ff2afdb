//! Why a call has no receipt.

use rk_record::ReceiptView;
use thiserror::Error;

/// Why a turn that was asked for as owed has no receipt.
#[derive(Clone, Copy, PartialEq, Eq, Debug, Error)]
pub enum Lapse {
    /// The step was taken, and its number `found` is not above `seen`, the greatest that the seat has seen. Never comes to a seat that has seen nothing.
    #[error("the step has the number {found}, not above {seen}, which was seen before")]
    Behind { seen: u64, found: u64 },
    /// The event was not owed: there was no step.
    #[error("the event was not owed")]
    Stray,
}

/// Why a call was not made. Nothing has changed.
#[derive(Clone, Copy, PartialEq, Eq, Debug, Error)]
pub enum CallFault {
    /// The step would have the number `found`, which is not above `seen`, the greatest that the seat has seen. Never comes to a seat that has seen nothing.
    #[error("the step would have the number {found}, not above {seen}, which was seen before")]
    Behind { seen: u64, found: u64 },
    /// The volume has not as many free places as the event may need.
    #[error("the record's volume is full")]
    Full,
    /// An allocation failed.
    #[error("out of memory")]
    NoMemory,
}

/// What a turn gives that was asked for as owed. It is made wherever the event is owed, also if there is no receipt.
#[derive(Drop)]
pub struct Owed<V> {
    /// What it gives back.
    pub value: V,
    /// The receipt of its step.
    pub receipt: Result<ReceiptView<'static>, Lapse>,
}
