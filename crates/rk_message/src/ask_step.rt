//! An ask as a step takes it.
ghost use Rattle.std.specs.Prelude.{◌≡◌, IfOk};
ghost use Rattle.rk_message.specs.Copies.{payload_of};

use crate::ask::AskView;
use crate::borrowed::AskRef;
use rk_names::Payload;
use std::alloc::{AllocError, Global};
use std::marker::Model;

/// An ask that stands elsewhere, with a payload of its own: what a step takes, since the payload becomes a key's. In clauses it is the ask.
#[derive(Debug, Drop)]
pub struct AskStep<'a> {
    /// The ask.
    ask: AskRef<'a>,
    /// A copy of its payload, if it has one.
    payload: Option<Payload>,
}

impl<'a> Model for AskStep<'a> {
    ghost use Rattle.std.specs.Prelude.{◌≡◌};
    ghost use Rattle.rk_message.specs.Ask.{Ask};
    ghost use Rattle.rk_message.specs.Copies.{payload_of};

    ghost Value = { Ask };

    ghost view = { λ s. s.ask };

    ghost invariant = { λ s. s.payload ≡ payload_of s.ask };
}

impl<'a> AskStep<'a> {
    /// The ask with a copy of its payload. An `Err` is out of memory, and comes only of an ask that has a payload.
    #[inline(always)]
    pub fn of(alloc: Global, ask: AskRef<'a>) -> Result<AskStep<'a>, AllocError>
        ensures { IfOk result (λ step. step ≡ ask.entry) }
    {
        let payload = match ask.ask() {
            AskView::Instantiate { payload, .. } | AskView::Add { payload, .. } => {
                Some(payload.to_owned(alloc)?)
            }
            _ => None,
        };
        Ok(AskStep { ask, payload })
    }

    /// The ask with its payload.
    #[inline(always)]
    pub(crate) fn with(ask: AskRef<'a>, payload: Option<Payload>) -> AskStep<'a>
        requires { payload ≡ payload_of ask }
        ensures { result ≡ ask.entry }
    {
        AskStep { ask, payload }
    }

    /// The ask.
    #[inline(always)]
    pub fn ask(&self) -> &'a AskView<'a>
        ensures { result.now ≡ self.now }
    {
        self.ask.ask()
    }

    /// The ask, and its payload.
    #[inline(always)]
    pub fn into_parts(self) -> (AskRef<'a>, Option<Payload>)
        ensures { (result.0 ≡ self.entry) × (result.1 ≡ payload_of self.entry) }
    {
        let AskStep { ask, payload } = self;
        (ask, payload)
    }
}
