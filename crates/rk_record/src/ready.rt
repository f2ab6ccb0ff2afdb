//! An event for which all memory is there that its turn takes.
ghost use Rattle.std.specs.Prelude.{◌≡◌, ◌≤◌, ◌-◌};
ghost use Rattle.rk_record.specs.Copies.{AreCopies, IsCopied, IsNoAsk, IsReady};
ghost use Rattle.rk_record.specs.Journal.{rooms_taken};

use crate::copies::Copies;
use crate::journal::Journal;
use crate::told::ToldView;
use rk_machine::{Event, EventOf, EventStep, EventView};
use rk_message::AskCopy;
use rk_names::Payload;

/// An event of which a copy takes no memory.
pub(crate) type EventCopy<'a> = EventOf<AskCopy<'a>>;

/// An event for which all memory is there that its turn takes.
#[derive(Drop)]
pub(crate) struct Ready<'a> {
    /// What the step takes.
    pub(crate) step: EventStep<'a>,
    /// What the record keeps.
    pub(crate) copy: EventCopy<'a>,
    /// What the receipt says of it.
    pub(crate) told: ToldView<'a>,
}

impl<'a> Ready<'a> {
    /// An event with its copies.
    #[inline(always)]
    pub(crate) fn of(event: EventView<'a>, copies: Copies<'a>) -> Ready<'a>
        requires { AreCopies event copies }
        ensures { IsReady event.entry result }
    {
        match copies {
            Copies::Ask(step, copy) => match &event {
                EventView::Asked(id, ask) => Ready {
                    told: ToldView::Asked(*id, ask.again()),
                    step: EventStep::Asked(*id, step),
                    copy: EventCopy::Asked(*id, copy),
                },
                _ => unreachable!(),
            },
            Copies::End(payload) => Ready::of_no_ask(event, Some(payload)),
            Copies::Nothing => Ready::of_no_ask(event, None),
        }
    }

    /// An event that is owed, so that it is no ask. It takes no memory: for a copy of the payload of an end room was kept.
    pub(crate) fn owed(event: EventView<'a>, journal: &mut Journal) -> Ready<'a>
        requires ask { IsNoAsk event }
        requires room { rooms_taken event ≤ journal.old.ends }
        ensures ready { IsReady event.entry result }
        ensures journal { journal.new ≡ record journal.old { ends = journal.old.ends - rooms_taken event.entry } }
    {
        let copy = match &event {
            EventView::Ended(_, _, Some(payload)) => Some(journal.copy_of_end(payload)),
            _ => None,
        };
        Ready::of_no_ask(event, copy)
    }

    /// An event other than an ask, with a copy of the payload of an end.
    fn of_no_ask(event: EventView<'a>, payload: Option<Payload>) -> Ready<'a>
        requires ask { IsNoAsk event }
        requires copy { IsCopied event payload }
        ensures { IsReady event.entry result }
    {
        Ready {
            told: ToldView::of(&event),
            copy: copy_of(&event, payload),
            step: step_of(event),
        }
    }
}

/// An event other than an ask, as the record keeps it, with a copy of the payload of an end.
fn copy_of<'a>(event: &EventView<'_>, payload: Option<Payload>) -> EventCopy<'a>
    requires ask { IsNoAsk event.now }
    requires copy { IsCopied event.now payload }
    ensures { result ≡ event.now }
{
    match event {
        EventView::Opened(id) => EventCopy::Opened(*id),
        EventView::Asked(_, _) => unreachable!(),
        EventView::Launched(key, ran) => EventCopy::Launched(*key, *ran),
        EventView::Ended(key, how, None) => EventCopy::Ended(*key, *how, None),
        EventView::Ended(key, how, Some(_)) => EventCopy::Ended(*key, *how, payload),
        EventView::Collect(id) => EventCopy::Collect(*id),
        EventView::Gone(id) => EventCopy::Gone(*id),
    }
}

/// An event other than an ask, as the step takes it.
fn step_of<'a>(event: EventView<'_>) -> EventStep<'a>
    requires { IsNoAsk event }
    ensures { result ≡ event.entry }
{
    match event {
        EventView::Opened(id) => EventStep::Opened(id),
        EventView::Asked(_, _) => unreachable!(),
        EventView::Launched(key, ran) => EventStep::Launched(key, ran),
        EventView::Ended(key, how, payload) => EventStep::Ended(key, how, payload),
        EventView::Collect(id) => EventStep::Collect(id),
        EventView::Gone(id) => EventStep::Gone(id),
    }
}

/// The copy of an event for the record. It takes no memory.
#[inline(always)]
pub(crate) fn recorded_event(copy: EventCopy<'_>) -> Event
    ensures { result ≡ copy.entry }
{
    match copy {
        EventCopy::Opened(id) => Event::Opened(id),
        EventCopy::Asked(id, ask) => Event::Asked(id, ask.into_ask()),
        EventCopy::Launched(key, ran) => Event::Launched(key, ran),
        EventCopy::Ended(key, how, payload) => Event::Ended(key, how, payload),
        EventCopy::Collect(id) => Event::Collect(id),
        EventCopy::Gone(id) => Event::Gone(id),
    }
}
