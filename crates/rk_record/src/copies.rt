//! What is copied of a step, so that its record and its receipt each have their own.
ghost use Rattle.std.specs.Prelude.{◌≡◌, is_some, None, IfOk, IfSome, IfNone, ◌≢◌};
ghost use Rattle.rk_machine.specs.Owing.{asked_of};
ghost use Rattle.rk_record.specs.Copies.{started, AreCopies, FitsStart, IsIdleAnswer};

use rk_machine::{Answer, BoxedSubject, EventView};
use rk_message::{AskCopy, AskStep, AskView, Reply};
use rk_names::{Errno, Payload};
use std::alloc::{AllocError, Global};

/// What is copied of an event before its step, since there it takes memory: for the step, and for the record.
#[derive(Drop)]
pub enum Copies<'a> {
    /// An ask: what the step takes, and what the record keeps.
    Ask(AskStep<'a>, AskCopy<'a>),
    /// The payload of an end, for the record.
    End(Payload),
    /// Nothing takes memory.
    Nothing,
}

impl<'a> Copies<'a> {
    /// The copies of an event. An `Err` is out of memory.
    #[inline(always)]
    pub fn of(alloc: Global, event: &EventView<'a>) -> Result<Copies<'a>, AllocError>
        ensures { IfOk result (λ c. AreCopies event.now c) }
    {
        match event {
            EventView::Asked(_, ask) => {
                let copy = AskCopy::of(alloc, ask.again())?;
                Ok(Copies::Ask(copy.step()?, copy))
            }
            EventView::Ended(_, _, Some(payload)) => Ok(Copies::End(payload.clone()?)),
            _ => Ok(Copies::Nothing),
        }
    }
}

/// Whether an event may start a construction: a REQUEST with a callout.
pub(crate) fn may_start(event: &EventView<'_>) -> bool
    ensures { result ≡ is_some (asked_of event.now) }
{
    match event {
        EventView::Asked(_, ask) => matches!(
            ask.ask(),
            AskView::Request {
                callout: Some(_),
                ..
            }
        ),
        _ => false,
    }
}

/// A copy of an answer for the record, which for a start has this copy of its subject. `None` if there is none: out of memory is no answer
/// for a record, and for bytes there may be no memory. Neither has changed anything.
#[inline(always)]
pub(crate) fn recorded_answer(answer: &Answer, subject: Option<BoxedSubject>) -> Option<Answer>
    requires { FitsStart subject answer.now }
    ensures copy { IfSome result (λ a. (a ≡ answer.now) × (a ≢ Answer.Refused Errno.Enomem)) }
    ensures none { IfNone result (IsIdleAnswer answer.now) }
{
    match answer {
        Answer::Start(key, _) => match subject {
            Some(subject) => Some(Answer::Start(*key, subject)),
            None => unreachable!(),
        },
        other => recorded_other(other),
    }
}

/// The same of an answer that is no start.
#[inline(always)]
fn recorded_other(answer: &Answer) -> Option<Answer>
    requires { started answer.now ≡ None }
    ensures copy { IfSome result (λ a. (a ≡ answer.now) × (a ≢ Answer.Refused Errno.Enomem)) }
    ensures none { IfNone result (IsIdleAnswer answer.now) }
{
    match answer {
        Answer::Done(reply) => Some(Answer::Done(recorded_reply(reply)?)),
        Answer::Start(_, _) => unreachable!(),
        Answer::Negate(key) => Some(Answer::Negate(*key)),
        Answer::Waiting(key) => Some(Answer::Waiting(*key)),
        Answer::Refused(Errno::Enomem) => None,
        Answer::Refused(errno) => Some(Answer::Refused(*errno)),
    }
}

#[inline(always)]
fn recorded_reply(reply: &Reply) -> Option<Reply>
    ensures copy { IfSome result (λ r. r ≡ reply.now) }
    ensures none { IfNone result (IsIdleAnswer (Answer.Done reply.now)) }
{
    match reply {
        Reply::Number(number) => Some(Reply::Number(*number)),
        Reply::Bytes(bytes) => match bytes.clone() {
            Ok(copy) => Some(Reply::Bytes(copy)),
            Err(_) => None,
        },
        Reply::Rings {
            thread,
            process,
            session,
            user,
        } => Some(Reply::Rings {
            thread: *thread,
            process: *process,
            session: *session,
            user: *user,
        }),
        Reply::Refused(errno) => Some(Reply::Refused(*errno)),
    }
}

/// The copy of the subject of a start, for whoever launches the handler; of any other answer there is none.
#[inline(always)]
pub(crate) fn started_subject(
    answer: &Answer,
    subject: Option<BoxedSubject>,
) -> Option<BoxedSubject>
    requires { FitsStart subject answer.now }
    ensures { result ≡ started answer.now }
{
    match answer {
        Answer::Start(_, _) => subject,
        _ => None,
    }
}
