//! The callout: what a handler gets to make its key from.
ghost use Rattle.std.specs.Prelude.{◌≡◌, IfOk, IfErr, None, MatchResult, Some};
ghost use Rattle.rk_names.specs.Longs.{in_callout, IsLongOf};
ghost use Rattle.rk_names.specs.Rules.{callout_fault, IsRefusedFor};

use crate::errors::NameFault;
use crate::name_bytes::{LongBytes, NameBytes};
use crate::text::text_fault;
use std::alloc::{AllocError, Global};
use std::marker::Model;

/// What the requester passes to the handler: 0 to 4,095 bytes of UTF-8 without a zero byte
/// (request_key(2), `callout_info`). At most 22 stand in the value, and the copies of more share them.
#[derive(Debug, Drop)]
pub struct Callout {
    /// The text, 0 to 4,095 bytes.
    bytes: NameBytes<{ Callout::IN_VALUE }>,
}

impl Model for Callout {
    ghost use Rattle.std.specs.Prelude.{◌≡◌, List, ℕ, None};
    ghost use Rattle.rk_names.specs.Rules.{callout_fault};

    ghost Value = { List ℕ };

    ghost view = { λ n. n.bytes };

    ghost invariant = { λ n. callout_fault n.bytes ≡ None };
}

impl Callout {
    /// The most bytes that it has.
    pub const MAX_LEN: usize = 4_095;

    /// The most bytes that stand in its value.
    pub const IN_VALUE: usize = 22;

    /// The first rule that the bytes break; `None` if `new` would make them a name. It takes no
    /// memory.
    pub fn fault(bytes: &[u8]) -> Option<NameFault>
        ensures { result ≡ callout_fault bytes.now }
    {
        if bytes.len() > Callout::MAX_LEN {
            return Some(NameFault::TooLong);
        }
        text_fault(bytes)
    }

    /// A copy of the bytes. Refusals in this order: `TooLong` past 4,095 bytes, `Byte`, `NoMemory`.
    pub fn new(alloc: Global, bytes: &[u8]) -> Result<Callout, NameFault>
        ensures ok { IfOk result (λ n. (n ≡ bytes.now) × (callout_fault bytes.now ≡ None)) }
        ensures err { IfErr result (λ f. IsRefusedFor f (callout_fault bytes.now)) }
    {
        if let Some(fault) = Callout::fault(bytes) {
            return Err(fault);
        }
        Callout::from_checked(alloc, bytes).map_err(|_| NameFault::NoMemory)
    }

    /// A copy of bytes in which `fault` finds none, without another look at them. The only refusal
    /// is out of memory.
    pub fn from_checked(alloc: Global, bytes: &[u8]) -> Result<Callout, AllocError>
        requires { callout_fault bytes.now ≡ None }
        ensures { IfOk result (λ n. n ≡ bytes.now) }
    {
        Ok(Callout {
            bytes: NameBytes::of(alloc, bytes)?,
        })
    }

    /// The bytes that it was made of.
    pub fn as_bytes(&self) -> &[u8]
        ensures bytes { result.now ≡ self.now }
        ensures rule { callout_fault self.now ≡ None }
    {
        self.bytes.as_slice()
    }

    /// The same, borrowed.
    pub fn view(&self) -> CalloutView<'_>
        ensures { result ≡ self.now }
    {
        CalloutView {
            bytes: self.bytes.as_slice(),
        }
    }
}

impl Clone for Callout {
    ghost is_clone = { λ name copy. copy ≡ name };

    fn clone(&self) -> Result<Callout, AllocError> {
        Ok(Callout {
            bytes: self.bytes.clone()?,
        })
    }
}

/// A callout that is still borrowed: the bytes keep the rule of a [`Callout`].
#[derive(Debug, Drop)]
pub struct CalloutView<'a> {
    /// The text, 0 to 4,095 bytes.
    bytes: &'a [u8],
}

impl<'a> Model for CalloutView<'a> {
    ghost use Rattle.std.specs.Prelude.{◌≡◌, List, ℕ, None};
    ghost use Rattle.rk_names.specs.Rules.{callout_fault};

    ghost Value = { List ℕ };

    ghost view = { λ n. n.bytes.now };

    ghost invariant = { λ n. callout_fault n.bytes.now ≡ None };
}

impl<'a> CalloutView<'a> {
    /// The bytes, where they keep the rule; else the first rule that they break. It takes no memory.
    pub fn new(bytes: &'a [u8]) -> Result<CalloutView<'a>, NameFault>
        ensures { MatchResult result (λ n. (n ≡ bytes.now) × (callout_fault bytes.now ≡ None)) (λ f. callout_fault bytes.now ≡ Some f) }
    {
        match Callout::fault(bytes) {
            Some(fault) => Err(fault),
            None => Ok(CalloutView { bytes }),
        }
    }

    /// The same once more, which borrows the same bytes.
    #[inline(always)]
    pub fn again(&self) -> CalloutView<'a>
        ensures { result ≡ self.now }
    {
        CalloutView { bytes: self.bytes }
    }

    /// The bytes that it was made of.
    pub fn as_bytes(&self) -> &'a [u8]
        ensures bytes { result.now ≡ self.now }
        ensures rule { callout_fault self.now ≡ None }
    {
        self.bytes
    }

    /// A copy. The only refusal is out of memory.
    pub fn to_owned(&self, alloc: Global) -> Result<Callout, AllocError>
        ensures { IfOk result (λ n. n ≡ self.now) }
    {
        Callout::from_checked(alloc, self.bytes)
    }

    /// What a copy takes of memory: nothing for at most 22 bytes. The only refusal is out of memory.
    #[inline(always)]
    pub fn long(&self, alloc: Global) -> Result<Option<LongBytes>, AllocError>
        ensures { IfOk result (λ long. IsLongOf in_callout long self.now) }
    {
        NameBytes::<{ Callout::IN_VALUE }>::long(alloc, self.bytes)
    }

    /// A copy for which `long` has taken the memory before.
    #[inline(always)]
    pub fn to_owned_with(&self, long: Option<LongBytes>) -> Callout
        requires { IsLongOf in_callout long self.now }
        ensures { result ≡ self.now }
    {
        Callout {
            bytes: NameBytes::with(self.bytes, long),
        }
    }
}
