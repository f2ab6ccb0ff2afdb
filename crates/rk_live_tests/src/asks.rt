//! What the client of the tests asks.
ghost use Rattle.rk_hall.specs.Seats.{IsCall};

use rk_machine::EventView;
use rk_message::{AskRef, AskView, Greeting};
use rk_names::{
    CalloutView, Description, DescriptionView, Moment, Payload, PayloadView, Serial, SessionId,
    TypeName, TypeView,
};
use std::alloc::{AllocError, Global};

/// The moment of what is asked by no clock.
pub const NOW: Moment = Moment(100);

/// The client of the tests.
pub const CLIENT: SessionId = SessionId::Client(1);

/// Another one.
pub const OTHER: SessionId = SessionId::Client(2);

/// The client says that it is user 1000.
pub fn hello() -> AskView<'static> {
    hello_of(1000)
}

/// A client says that it is this user.
pub fn hello_of(uid: u32) -> AskView<'static> {
    greeting(uid, None)
}

/// A client says that it is user 1000, and joins this session ring.
pub fn joining(ring: Serial) -> AskView<'static> {
    greeting(1000, Some(ring))
}

fn greeting(uid: u32, join: Option<Serial>) -> AskView<'static> {
    AskView::Hello(Greeting {
        uid,
        gid: 1000,
        thread: false,
        process: false,
        join,
    })
}

/// It adds the key of this name, with the payload `v`, to its session ring; `None` for bytes that break the rule of names.
pub fn add(name: &[u8]) -> Option<AskView<'_>> {
    Some(AskView::Add {
        typ: TypeView::new(b"user").ok()?,
        description: DescriptionView::new(name).ok()?,
        payload: PayloadView::new(b"v").ok()?,
        ring: -3,
    })
}

/// It requests the key of this name, with the callout `x`; `None` for bytes that break the rule of names.
pub fn request(name: &[u8]) -> Option<AskView<'_>> {
    request_with(name, b"x")
}

/// The same with a callout that does not stand in its value, so that a copy takes memory.
pub fn long_request(name: &[u8]) -> Option<AskView<'_>> {
    request_with(
        name,
        b"more than the twenty-two bytes that stand in a value",
    )
}

fn request_with<'a>(name: &'a [u8], callout: &'a [u8]) -> Option<AskView<'a>> {
    Some(AskView::Request {
        typ: TypeView::new(b"user").ok()?,
        description: DescriptionView::new(name).ok()?,
        callout: Some(CalloutView::new(callout).ok()?),
        destination: 0,
    })
}

/// It requests the key of this name, without a callout; `None` for bytes that break the rule of names.
pub fn find(name: &[u8]) -> Option<AskView<'_>> {
    Some(AskView::Request {
        typ: TypeView::new(b"user").ok()?,
        description: DescriptionView::new(name).ok()?,
        callout: None,
        destination: 0,
    })
}

/// The client asks this.
pub fn asked<'a>(ask: &'a AskView<'a>) -> EventView<'a>
    ensures { IsCall result }
{
    asked_by(CLIENT, ask)
}

/// A session asks this.
pub fn asked_by<'a>(session: SessionId, ask: &'a AskView<'a>) -> EventView<'a>
    ensures { IsCall result }
{
    EventView::Asked(session, AskRef::of(ask))
}

/// The type `user`.
pub fn user(alloc: Global) -> Result<TypeName, AllocError> {
    TypeName::new(b"user").map_err(|_| AllocError)
}

/// A key's description. An `Err` is out of memory, or a name that breaks its rule.
pub fn description(alloc: Global, name: &[u8]) -> Result<Description, AllocError> {
    Description::new(alloc, name).map_err(|_| AllocError)
}

/// A key's payload. An `Err` is out of memory, or no byte at all.
pub fn payload(alloc: Global, bytes: &[u8]) -> Result<Payload, AllocError> {
    Payload::new(Vec::from_slice(alloc, bytes)?).map_err(|_| AllocError)
}
