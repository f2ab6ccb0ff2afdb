//! What a session may ask.

ghost use Rattle.std.specs.Prelude.{◌≡◌};

use crate::greeting::Greeting;
use crate::shape::Op;
use rk_names::{
    Callout, CalloutView, Description, DescriptionView, KeyError, Payload, PayloadView, TypeName,
    TypeView,
};

/// What a session asks, with names and a payload of its own.
pub type Ask = AskOf<TypeName, Description, Callout, Payload>;

/// What a session asks, still borrowed from the bytes that say it. It takes no memory.
pub type AskView<'a> = AskOf<TypeView<'a>, DescriptionView<'a>, CalloutView<'a>, PayloadView<'a>>;

/// What a session asks, with a type `T`, a description `D`, a callout `C` and a payload `P`. Rings and keys are numbers as on the wire. Positive ones
/// are serials, others name a ring or a key by its role, as -3 the session ring (keyctl(2), "Special key IDs"). What a number means, and whether it
/// is refused, is for whoever carries the ask out.
#[derive(Debug, Drop, PartialEq, Eq)]
pub enum AskOf<T, D, C, P> {
    /// Makes the session's context: who asks, which of its own rings it has, and the session ring
    /// that it joins (keyctl_join_session_keyring(3)).
    Hello(Greeting),
    /// Finds a key, or has it made by a handler that gets the callout, and links it into the
    /// destination. For 0 a key that is found is linked nowhere, and one that is made into the
    /// session's default ring (request_key(2)).
    Request {
        /// The key's type.
        typ: T,
        /// The key's description.
        description: D,
        /// What the handler is to know; without one no handler is started, and an absent key is ENOKEY.
        callout: Option<C>,
        /// The ring that gets the link, 0 for none.
        destination: i32,
    },
    /// Takes on the authority to make a key; 0 lays it down (keyctl_assume_authority(3)).
    Assume {
        /// The key under construction, 0 for none.
        key: i32,
    },
    /// Gives the key its payload and links it; 0 links it nowhere (keyctl_instantiate(3)).
    Instantiate {
        /// The key under construction, whose authority is assumed.
        key: i32,
        /// Its payload, 1 to 32,767 bytes.
        payload: P,
        /// The ring that gets the link, 0 for none.
        ring: i32,
    },
    /// Makes the key negative for so many seconds, with ENOKEY (keyctl_negate(3)).
    Negate {
        /// The key under construction, whose authority is assumed.
        key: i32,
        /// How many seconds the key stays negative; after them it is expired.
        timeout: u32,
        /// The ring that gets the link, 0 for none.
        ring: i32,
    },
    /// Makes the key negative for so many seconds, with the error (keyctl_reject(3)).
    Reject {
        /// The key under construction, whose authority is assumed.
        key: i32,
        /// How many seconds the key stays negative; after them it is expired.
        timeout: u32,
        /// What whoever requests it meanwhile is answered.
        error: KeyError,
        /// The ring that gets the link, 0 for none.
        ring: i32,
    },
    /// The key's payload; -7 is the authority, whose payload is the callout (keyctl_read(3)).
    Read {
        /// The key, or -7 for the authority.
        key: i32,
    },
    /// The key's type, owner, state and description (keyctl_describe(3)).
    Describe {
        /// The key.
        key: i32,
    },
    /// Marks the key as revoked (keyctl_revoke(3)).
    Revoke {
        /// The key.
        key: i32,
    },
    /// Has the key expire so many seconds on; 0 takes the expiry away (keyctl_set_timeout(3)).
    Timeout {
        /// The key.
        key: i32,
        /// How many seconds from now, 0 for never.
        seconds: u32,
    },
    /// Links the key into the ring (keyctl_link(3)).
    Link {
        /// The key.
        key: i32,
        /// The ring that gets the link.
        ring: i32,
    },
    /// Takes the key's link out of the ring (keyctl_unlink(3)).
    Unlink {
        /// The key.
        key: i32,
        /// The ring that has the link.
        ring: i32,
    },
    /// Takes every link out of the ring (keyctl_clear(3)).
    Clear {
        /// The ring to be emptied.
        ring: i32,
    },
    /// Sets which ring a made key is linked into by default; -1 only returns the setting
    /// (keyctl_set_reqkey_keyring(3)).
    Default {
        /// The setting's number in keyctl(2), -1 to 7.
        setting: i32,
    },
    /// Makes a key with its payload and links it (add_key(2)).
    Add {
        /// The type of the new key.
        typ: T,
        /// Its description.
        description: D,
        /// Its payload, 1 to 32,767 bytes.
        payload: P,
        /// The ring that gets the link.
        ring: i32,
    },
    /// The callout for the handler whose authority is assumed (request_key(2), `callout_info`).
    Callout,
}

impl<T, D, C, P> AskOf<T, D, C, P> {
    ghost use Rattle.rk_message.specs.Asks.{ask_op, ask_name};

    /// Which line of the table it is.
    pub fn op(&self) -> Op
        ensures { result ≡ ask_op self.now }
    {
        match self {
            AskOf::Hello(_) => Op::Hello,
            AskOf::Request { .. } => Op::Request,
            AskOf::Assume { .. } => Op::Assume,
            AskOf::Instantiate { .. } => Op::Instantiate,
            AskOf::Negate { .. } => Op::Negate,
            AskOf::Reject { .. } => Op::Reject,
            AskOf::Read { .. } => Op::Read,
            AskOf::Describe { .. } => Op::Describe,
            AskOf::Revoke { .. } => Op::Revoke,
            AskOf::Timeout { .. } => Op::Timeout,
            AskOf::Link { .. } => Op::Link,
            AskOf::Unlink { .. } => Op::Unlink,
            AskOf::Clear { .. } => Op::Clear,
            AskOf::Default { .. } => Op::Default,
            AskOf::Add { .. } => Op::Add,
            AskOf::Callout => Op::Callout,
        }
    }

    /// What the format calls the ask, as `REQUEST`.
    pub fn name(&self) -> &'static str
        ensures { result.now ≡ ask_name self.now }
    {
        self.op().shape().name
    }
}
