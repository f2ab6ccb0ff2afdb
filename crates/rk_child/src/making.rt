//! Whether a handler has made its key.
ghost use Rattle.std.specs.Prelude.{◌≡◌};
ghost use Rattle.rk_machine.specs.Laws.{completes, is_done, names};
ghost use Rattle.rk_child.specs.Making.{completes_in, gives_payload, says_made};

use rk_devices::Driven;
use rk_hall::ToldView;
use rk_machine::{Answer, How};
use rk_message::{AskView, Reply};
use rk_names::{Payload, Serial};
use rk_talk::Saying;

/// Whether the number in an ask names the key.
fn names(number: i32, key: Serial) -> bool
    ensures { result ≡ names number key }
{
    match u32::try_from(number) {
        Ok(number) => number == key.get(),
        Err(_) => false,
    }
}

/// Whether it is an ask that completes the key: an INSTANTIATE, a NEGATE or a REJECT of it.
fn completes(ask: &AskView<'_>, key: Serial) -> bool
    ensures { result ≡ completes ask.now key }
{
    match ask {
        AskView::Instantiate { key: number, .. } => names(*number, key),
        AskView::Negate { key: number, .. } => names(*number, key),
        AskView::Reject { key: number, .. } => names(*number, key),
        _ => false,
    }
}

/// Whether the event is such an ask.
fn completes_in(told: &ToldView<'_>, key: Serial) -> bool
    ensures { result ≡ completes_in key told.now }
{
    match told {
        ToldView::Asked(_, ask) => completes(ask.ask(), key),
        _ => false,
    }
}

/// Whether the answer is the number 0.
fn is_done(answer: &Answer) -> bool
    ensures { result ≡ is_done answer.now }
{
    match answer {
        Answer::Done(Reply::Number(number)) => *number == 0,
        _ => false,
    }
}

/// Whether what is said is that an ask has completed the key.
pub fn says_made(saying: &Saying<'_>, key: Serial) -> bool
    ensures { result ≡ says_made key saying.now }
{
    match saying {
        Saying::Noted(receipt) => is_done(receipt.answer()) && completes_in(receipt.told(), key),
        Saying::Short(_) | Saying::Behind => false,
    }
}

/// Whether a handler that has ended so gives its hall a payload.
pub fn gives_payload(driven: Driven, payload: &Option<Payload>) -> bool
    ensures { result ≡ gives_payload driven payload.now }
{
    match (driven, payload) {
        (Driven::Ended(How::Exit(status)), Some(_)) => status == 0,
        _ => false,
    }
}
