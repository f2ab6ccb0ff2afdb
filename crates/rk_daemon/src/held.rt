//! How much the halls' records hold.
ghost use Rattle.std.specs.Prelude.{◌≡◌};
ghost use Rattle.rk_daemon.specs.Held.{outside, bytes_of, taken_by};

use crate::by_hall::ByHall;
use rk_hall::{HallNo, ReceiptView, ToldView};
use rk_machine::Answer;
use rk_message::{AskView, Reply};
use rk_names::{Callout, Description};
use std::sync::atomic::{AtomicU64, Ordering};

/// How many bytes of asks and replies each hall's record has taken since its volume was last handed out, about, and how many volumes were full. Threads
/// count here without a lock.
#[derive(Drop)]
pub struct Held {
    /// The bytes of each hall.
    bytes: ByHall<AtomicU64>,
    /// The volumes that were full and handed out, of all halls.
    volumes: AtomicU64,
}

impl Held {
    /// Nothing is held.
    pub fn new() -> Held {
        Held {
            bytes: ByHall {
                zero: AtomicU64::new(0),
                one: AtomicU64::new(0),
                two: AtomicU64::new(0),
                three: AtomicU64::new(0),
            },
            volumes: AtomicU64::new(0),
        }
    }

    /// Counts so many bytes more in the record of this hall.
    // (For most asks they are none. Threads share what is written here, so they write nothing then.)
    pub fn add(&self, hall: HallNo, bytes: u64) {
        if bytes > 0 {
            self.bytes.of(hall).fetch_add(bytes, Ordering::Relaxed);
        }
    }

    /// Counts a volume that was full and handed out.
    pub fn roll(&self) {
        self.volumes.fetch_add(1, Ordering::Relaxed);
    }

    /// How many volumes were full and handed out.
    pub fn volumes(&self) -> u64 {
        self.volumes.load(Ordering::Relaxed)
    }

    /// Whether the record of this hall has taken more than so many bytes. Then its volume is to be handed out, and it is counted from 0 again, so that one
    /// of several threads gets it.
    pub fn is_over(&self, hall: HallNo, most: u64) -> bool {
        let bytes = self.bytes.of(hall);
        bytes.load(Ordering::Relaxed) > most && bytes.swap(0, Ordering::Relaxed) > most
    }
}

/// How many bytes the step of this receipt has put into its hall's record beside the step itself: those of the long names and the payloads of the ask, and of
/// its reply.
pub fn taken_by(receipt: &ReceiptView<'_>) -> u64
    ensures { result ≡ taken_by receipt.now.told receipt.now.answer }
{
    let asked = match receipt.told() {
        ToldView::Asked(_, ask) => bytes_of(ask.ask()),
        _ => 0,
    };
    let answered = match receipt.answer() {
        Answer::Done(Reply::Bytes(bytes)) => bytes.as_bytes().len(),
        _ => 0,
    };
    asked.saturating_add(answered) as u64
}

/// How many bytes of a name so long do not lie in its step, where at most `few` stand in its value: all or none.
fn outside(few: usize, len: usize) -> usize
    ensures { result ≡ outside few len }
{
    if len <= few { 0 } else { len }
}

/// How many bytes an ask has outside of its step: those of a long description or callout, and of its payload.
fn bytes_of(ask: &AskView<'_>) -> usize
    ensures { result ≡ bytes_of ask.now }
{
    match ask {
        AskView::Request {
            description,
            callout: Some(callout),
            ..
        } => {
            outside(Description::IN_VALUE, description.as_bytes().len())
                + outside(Callout::IN_VALUE, callout.as_bytes().len())
        }
        AskView::Request { description, .. } => {
            outside(Description::IN_VALUE, description.as_bytes().len())
        }
        AskView::Instantiate { payload, .. } => payload.as_bytes().len(),
        AskView::Add {
            description,
            payload,
            ..
        } => {
            outside(Description::IN_VALUE, description.as_bytes().len()) + payload.as_bytes().len()
        }
        _ => 0,
    }
}
