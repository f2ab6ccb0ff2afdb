//! Sessions, and what they wait for.
use rk_names::{Context, KeyError, Serial, Setting};

/// The outcome of a wait for a key: its serial, or the key's error.
#[derive(Clone, Copy, Debug, PartialEq, Eq)]
pub enum Outcome {
    /// The key, which may be used.
    Found(Serial),
    /// Why there is none (request_key(2), "ERRORS").
    Failed(KeyError),
}

/// A session waits for a key: it asks nothing more until it has collected the outcome.
#[derive(Clone, Copy, Debug, PartialEq, Eq)]
pub struct Wait {
    /// For which key it waits.
    pub key: Serial,
    /// Whether its request started the construction. A starter is answered when the handler has ended, any other when the key is complete.
    pub starter: bool,
    /// `None` until the key is complete, or its handler has ended.
    pub outcome: Option<Outcome>,
}

/// A session, be it a client's or a handler's.
#[derive(Clone, Copy, Debug, PartialEq, Eq)]
pub struct Session {
    /// What HELLO made it. A handler has none of its own.
    pub context: Option<Context>,
    /// Where its new keys go by default.
    pub setting: Setting,
    /// The key whose authority it has assumed. A client never has one.
    pub assumed: Option<Serial>,
    /// What it waits for; `None` while it may ask.
    pub wait: Option<Wait>,
}

impl Session {
    ghost use Rattle.std.specs.Prelude.{◌≡◌};
    ghost use Rattle.rk_auth.specs.Sessions.{new_session, waited_key};

    /// A session as it begins: no context, nothing assumed, no wait, the default setting.
    pub fn new() -> Session
        ensures { result ≡ new_session }
    {
        Session {
            context: None,
            setting: Setting::Default,
            assumed: None,
            wait: None,
        }
    }

    /// The key for which it waits, if it does.
    pub fn waited(&self) -> Option<Serial>
        ensures { result ≡ waited_key self.now }
    {
        Some(self.wait.as_ref()?.key)
    }
}
