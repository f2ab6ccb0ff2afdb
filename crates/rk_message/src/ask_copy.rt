//! A copy of an ask, for which the memory is taken before.
ghost use Rattle.std.specs.Prelude.{◌≡◌, IfOk};
ghost use Rattle.rk_message.specs.Copies.{IsCopied, IsLongCallout, IsPlain};

use crate::ask::{Ask, AskOf, AskView};
use crate::ask_step::AskStep;
use crate::borrowed::AskRef;
use crate::copying::converted;
use rk_names::{CalloutView, LongBytes, Payload};
use std::alloc::{AllocError, Global};
use std::marker::Model;

/// An ask that stands elsewhere, with all the memory that a copy of it takes, so that the copy can be made where no memory may be asked for. In clauses it
/// is the ask.
#[derive(Debug, Drop)]
pub struct AskCopy<'a> {
    /// The ask.
    ask: AskRef<'a>,
    /// Its description, if it is long.
    description: Option<LongBytes>,
    /// Its callout, if that is long.
    callout: Option<LongBytes>,
    /// Its payload, if it has one.
    payload: Option<Payload>,
}

impl<'a> Model for AskCopy<'a> {
    ghost use Rattle.rk_message.specs.Ask.{Ask};
    ghost use Rattle.rk_message.specs.Copies.{IsCopied};

    ghost Value = { Ask };

    ghost view = { λ c. c.ask };

    ghost invariant = { λ c. IsCopied c.ask c.description c.callout c.payload };
}

impl<'a> AskCopy<'a> {
    /// The ask, with what its copy takes of memory. An `Err` is out of memory.
    #[inline(always)]
    pub fn of(alloc: Global, ask: AskRef<'a>) -> Result<AskCopy<'a>, AllocError>
        ensures { IfOk result (λ copy. copy ≡ ask.entry) }
    {
        let (description, callout, payload) = match ask.ask() {
            AskView::Request {
                description,
                callout,
                ..
            } => (
                description.long(alloc)?,
                long_callout(alloc, callout)?,
                None,
            ),
            AskView::Instantiate { payload, .. } => (None, None, Some(payload.to_owned(alloc)?)),
            AskView::Add {
                description,
                payload,
                ..
            } => (
                description.long(alloc)?,
                None,
                Some(payload.to_owned(alloc)?),
            ),
            _ => (None, None, None),
        };
        Ok(AskCopy {
            ask,
            description,
            callout,
            payload,
        })
    }

    /// The ask as a step takes it, whose payload shares the copy's bytes. An `Err` is out of memory, and comes only of an ask that has a payload.
    #[inline(always)]
    pub fn step(&self) -> Result<AskStep<'a>, AllocError>
        ensures { IfOk result (λ step. step ≡ self.now) }
    {
        Ok(AskStep::with(self.ask.again(), self.payload.clone()?))
    }

    /// The copy. It takes no memory.
    #[inline(always)]
    pub fn into_ask(self) -> Ask
        ensures { result ≡ self.entry }
    {
        let AskCopy {
            ask,
            description: long,
            callout: long_callout,
            payload: bytes,
        } = self;
        match *ask.ask() {
            AskOf::Request {
                ref typ,
                ref description,
                ref callout,
                ref destination,
            } => AskOf::Request {
                typ: typ.to_owned(),
                description: description.to_owned_with(long),
                callout: match callout {
                    Some(callout) => Some(callout.to_owned_with(long_callout)),
                    None => None,
                },
                destination: *destination,
            },
            AskOf::Instantiate {
                key,
                payload: _,
                ring,
            } => match bytes {
                Some(payload) => AskOf::Instantiate { key, payload, ring },
                None => unreachable!(),
            },
            AskOf::Add {
                ref typ,
                ref description,
                payload: _,
                ring,
            } => match bytes {
                Some(payload) => AskOf::Add {
                    typ: typ.to_owned(),
                    description: description.to_owned_with(long),
                    payload,
                    ring,
                },
                None => unreachable!(),
            },
            ref plain => copy_of_plain(plain),
        }
    }
}

/// The copy of an ask that has no name and no payload. (It is apart, so that what a copy has of memory is let go once, and not in an arm of each kind.)
#[inline(always)]
fn copy_of_plain(ask: &AskView<'_>) -> Ask
    requires { IsPlain ask.now }
    ensures { result ≡ ask.now }
{
    converted! { *ask;
        AskOf::Request { .. } => unreachable!(),
        AskOf::Instantiate { .. } => unreachable!(),
        AskOf::Add { .. } => unreachable!(),
    }
}

/// What the copy of a callout takes of memory, if there is one. An `Err` is out of memory.
#[inline(always)]
fn long_callout(
    alloc: Global,
    callout: &Option<CalloutView<'_>>,
) -> Result<Option<LongBytes>, AllocError>
    ensures { IfOk result (λ long. IsLongCallout long callout.now) }
{
    match callout {
        Some(callout) => callout.long(alloc),
        None => Ok(None),
    }
}
