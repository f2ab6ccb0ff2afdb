//! What a key holds.
ghost use Rattle.std.specs.Prelude.{◌≡◌, MatchResult, None, Some, IfOk, IfSome};
ghost use Rattle.rk_names.specs.Rules.{payload_fault};
ghost use Rattle.rk_names.specs.Shares.{payload_bytes};

use crate::errors::NameFault;
use crate::shared_bytes::SharedBytes;
use std::alloc::{AllocError, Global};
use std::marker::Model;

/// What a key holds: 1 to 32,767 bytes, any bytes (add_key(2), the type `user`).
/// One that was made by `to_owned` shares its bytes with its copies, and one that was moved here is copied.
#[derive(Debug, Drop)]
pub struct Payload {
    /// The bytes, 1 to 32,767 of them.
    bytes: PayloadBytes,
}

/// The bytes of a payload, wherever they lie.
#[derive(Debug, Drop)]
enum PayloadBytes {
    /// A vector that was moved here.
    Moved(Vec<u8>),
    /// A copy of borrowed bytes, which further copies share.
    Shared(SharedBytes),
}

impl PayloadBytes {
    fn as_slice(&self) -> &[u8]
        ensures { result.now ≡ payload_bytes self.now }
    {
        match self {
            PayloadBytes::Moved(bytes) => bytes,
            PayloadBytes::Shared(bytes) => bytes.as_bytes(),
        }
    }
}

impl Model for Payload {
    ghost use Rattle.std.specs.Prelude.{◌≡◌, List, ℕ, None};
    ghost use Rattle.rk_names.specs.Rules.{payload_fault};
    ghost use Rattle.rk_names.specs.Shares.{payload_bytes};

    ghost Value = { List ℕ };

    ghost view = { λ p. payload_bytes p.bytes };

    ghost invariant = { λ p. payload_fault (payload_bytes p.bytes) ≡ None };
}

impl Payload {
    /// The most bytes that it has.
    pub const MAX_LEN: usize = 32_767;

    /// The first rule that the bytes break; `None` if `new` would make them a payload. It takes no
    /// memory.
    pub fn fault(bytes: &[u8]) -> Option<NameFault>
        ensures { result ≡ payload_fault bytes.now }
    {
        if bytes.is_empty() {
            return Some(NameFault::Empty);
        }
        if bytes.len() > Payload::MAX_LEN {
            return Some(NameFault::TooLong);
        }
        None
    }

    /// Moves the bytes, and takes no memory. Refusals in this order: `Empty`, `TooLong` past 32,767
    /// bytes.
    pub fn new(bytes: Vec<u8>) -> Result<Payload, NameFault>
        ensures cases { MatchResult result (λ p. (p ≡ bytes.items) × (payload_fault bytes.items ≡ None)) (λ f. payload_fault bytes.items ≡ Some f) }
    {
        match Payload::fault(&bytes) {
            Some(fault) => Err(fault),
            None => Ok(Payload::from_checked(bytes)),
        }
    }

    /// Moves bytes in which `fault` finds none, without another look at them, and takes no memory.
    pub fn from_checked(bytes: Vec<u8>) -> Payload
        requires { payload_fault bytes.items ≡ None }
        ensures { result ≡ bytes.items }
    {
        Payload {
            bytes: PayloadBytes::Moved(bytes),
        }
    }

    /// The bytes that it was made of.
    pub fn as_bytes(&self) -> &[u8]
        ensures bytes { result.now ≡ self.now }
        ensures rule { payload_fault self.now ≡ None }
    {
        self.bytes.as_slice()
    }

    /// The same, borrowed.
    pub fn view(&self) -> PayloadView<'_>
        ensures { result ≡ self.now }
    {
        PayloadView {
            bytes: self.bytes.as_slice(),
        }
    }

    /// A copy that shares the bytes, and takes no memory. `None` for bytes that were moved here.
    pub fn again(&self) -> Option<Payload>
        ensures { IfSome result (λ copy. copy ≡ self.now) }
    {
        match &self.bytes {
            PayloadBytes::Moved(_) => None,
            PayloadBytes::Shared(bytes) => match bytes.clone() {
                Ok(bytes) => Some(Payload {
                    bytes: PayloadBytes::Shared(bytes),
                }),
                Err(_) => None,
            },
        }
    }

    /// The bytes as others may share them. It takes memory for bytes that were moved here, and an `Err` is out of memory.
    pub fn shared(&self, alloc: Global) -> Result<SharedBytes, AllocError>
        ensures bytes { IfOk result (λ bytes. bytes ≡ self.now) }
        ensures rule { payload_fault self.now ≡ None }
    {
        match &self.bytes {
            PayloadBytes::Moved(bytes) => SharedBytes::of(alloc, bytes),
            PayloadBytes::Shared(bytes) => bytes.clone(),
        }
    }
}

impl Clone for Payload {
    ghost is_clone = { λ payload copy. copy ≡ payload };

    fn clone(&self) -> Result<Payload, AllocError> {
        Ok(Payload {
            bytes: match &self.bytes {
                PayloadBytes::Moved(bytes) => PayloadBytes::Moved(bytes.clone()?),
                PayloadBytes::Shared(bytes) => PayloadBytes::Shared(bytes.clone()?),
            },
        })
    }
}

/// A payload that is still borrowed: the bytes keep the rule of a [`Payload`].
#[derive(Debug, Drop)]
pub struct PayloadView<'a> {
    /// The bytes, 1 to 32,767 of them.
    bytes: &'a [u8],
}

impl<'a> Model for PayloadView<'a> {
    ghost use Rattle.std.specs.Prelude.{◌≡◌, List, ℕ, None};
    ghost use Rattle.rk_names.specs.Rules.{payload_fault};

    ghost Value = { List ℕ };

    ghost view = { λ n. n.bytes.now };

    ghost invariant = { λ n. payload_fault n.bytes.now ≡ None };
}

impl<'a> PayloadView<'a> {
    /// The bytes, where they keep the rule; else the first rule that they break. It takes no memory.
    pub fn new(bytes: &'a [u8]) -> Result<PayloadView<'a>, NameFault>
        ensures { MatchResult result (λ n. (n ≡ bytes.now) × (payload_fault bytes.now ≡ None)) (λ f. payload_fault bytes.now ≡ Some f) }
    {
        match Payload::fault(bytes) {
            Some(fault) => Err(fault),
            None => Ok(PayloadView { bytes }),
        }
    }

    /// The same once more, which borrows the same bytes.
    #[inline(always)]
    pub fn again(&self) -> PayloadView<'a>
        ensures { result ≡ self.now }
    {
        PayloadView { bytes: self.bytes }
    }

    /// The bytes that it was made of.
    pub fn as_bytes(&self) -> &'a [u8]
        ensures bytes { result.now ≡ self.now }
        ensures rule { payload_fault self.now ≡ None }
    {
        self.bytes
    }

    /// A copy. The only refusal is out of memory.
    pub fn to_owned(&self, alloc: Global) -> Result<Payload, AllocError>
        ensures { IfOk result (λ n. n ≡ self.now) }
    {
        Ok(Payload {
            bytes: PayloadBytes::Shared(SharedBytes::of(alloc, self.bytes)?),
        })
    }
}
