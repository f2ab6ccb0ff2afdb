//! Asks with names and a payload of their own, of asks that borrow them, and the other way round; and copies of asks.

ghost use Rattle.std.specs.Prelude.{◌≡◌, IfOk};
ghost use Rattle.rk_message.specs.declared.ask.AskOf.TheVariants.{Request as asks_request, Instantiate as asks_instantiate, Add as asks_add};

use crate::ask::{Ask, AskOf, AskView};
use crate::ask_copy::AskCopy;
use crate::borrowed::AskRef;
use rk_names::{
    Callout, CalloutView, Description, DescriptionView, Payload, PayloadView, TypeName, TypeView,
};
use std::alloc::{AllocError, Global};

/// An ask as another instance of [`AskOf`]: by the given arms what has a name or a payload, and any other as it stands.
macro_rules! converted {
    ($ask:expr; $($arms:tt)*) => {
        match $ask {
            $($arms)*
            AskOf::Hello(greeting) => AskOf::Hello(greeting),
            AskOf::Assume { key } => AskOf::Assume { key },
            AskOf::Negate { key, timeout, ring } => AskOf::Negate { key, timeout, ring },
            AskOf::Reject { key, timeout, error, ring } => AskOf::Reject { key, timeout, error, ring },
            AskOf::Read { key } => AskOf::Read { key },
            AskOf::Describe { key } => AskOf::Describe { key },
            AskOf::Revoke { key } => AskOf::Revoke { key },
            AskOf::Timeout { key, seconds } => AskOf::Timeout { key, seconds },
            AskOf::Link { key, ring } => AskOf::Link { key, ring },
            AskOf::Unlink { key, ring } => AskOf::Unlink { key, ring },
            AskOf::Clear { ring } => AskOf::Clear { ring },
            AskOf::Default { setting } => AskOf::Default { setting },
            AskOf::Callout => AskOf::Callout,
        }
    };
}

pub(crate) use converted;

impl<'a> AskView<'a> {
    /// The same ask with copies of its names and its payload. An `Err` is out of memory.
    pub fn to_owned(&self, alloc: Global) -> Result<Ask, AllocError>
        ensures { IfOk result (λ ask. ask ≡ self.now) }
    {
        Ok(AskCopy::of(alloc, AskRef::of(self))?.into_ask())
    }
}

impl Ask {
    /// The same ask, which borrows its names and its payload.
    pub fn view(&self) -> AskView<'_>
        ensures { result ≡ self.now }
    {
        converted! { *self;
            AskOf::Request { ref typ, ref description, ref callout, destination } => {
                request_view(typ, description, callout, destination)
            }
            AskOf::Instantiate { key, ref payload, ring } => {
                AskOf::Instantiate { key, payload: payload.view(), ring }
            }
            AskOf::Add { ref typ, ref description, ref payload, ring } => AskOf::Add {
                typ: typ.view(),
                description: description.view(),
                payload: payload.view(),
                ring,
            },
        }
    }
}

impl Clone for Ask {
    ghost is_clone = { λ ask copy. copy ≡ ask };

    fn clone(&self) -> Result<Ask, AllocError> {
        Ok(converted! { *self;
            AskOf::Request { ref typ, ref description, ref callout, destination } => {
                request(typ, description, callout, destination)?
            }
            AskOf::Instantiate { key, ref payload, ring } => instantiate(key, payload, ring)?,
            AskOf::Add { ref typ, ref description, ref payload, ring } => {
                add(typ, description, payload, ring)?
            }
        })
    }
}

fn request_view<'a>(
    typ: &'a TypeName,
    description: &'a Description,
    callout: &'a Option<Callout>,
    destination: i32,
) -> AskView<'a>
    ensures { result ≡ asks_request typ.now description.now callout.now destination }
{
    AskOf::Request {
        typ: typ.view(),
        description: description.view(),
        callout: match callout {
            Some(text) => Some(text.view()),
            None => None,
        },
        destination,
    }
}

fn request(
    typ: &TypeName,
    description: &Description,
    callout: &Option<Callout>,
    destination: i32,
) -> Result<Ask, AllocError>
    ensures { IfOk result (λ copy. copy ≡ asks_request typ.now description.now callout.now destination) }
{
    Ok(Ask::Request {
        typ: typ.clone()?,
        description: description.clone()?,
        callout: callout.clone()?,
        destination,
    })
}

fn instantiate(key: i32, payload: &Payload, ring: i32) -> Result<Ask, AllocError>
    ensures { IfOk result (λ copy. copy ≡ asks_instantiate key payload.now ring) }
{
    Ok(Ask::Instantiate {
        key,
        payload: payload.clone()?,
        ring,
    })
}

fn add(
    typ: &TypeName,
    description: &Description,
    payload: &Payload,
    ring: i32,
) -> Result<Ask, AllocError>
    ensures { IfOk result (λ copy. copy ≡ asks_add typ.now description.now payload.now ring) }
{
    Ok(Ask::Add {
        typ: typ.clone()?,
        description: description.clone()?,
        payload: payload.clone()?,
        ring,
    })
}
