//! What a key is called.
ghost use Rattle.std.specs.Prelude.{◌≡◌, IfOk, IfErr, None, MatchResult, Some};
ghost use Rattle.rk_names.specs.Longs.{in_description, IsLongOf};
ghost use Rattle.rk_names.specs.Rules.{description_fault, IsRefusedFor};

use crate::errors::NameFault;
use crate::name_bytes::{LongBytes, NameBytes};
use crate::text::text_fault;
use std::alloc::{AllocError, Global};
use std::marker::Model;

/// What a key is called among those of its type: 1 to 4,095 bytes of UTF-8 without a zero byte
/// (request_key(2), "DESCRIPTION"). At most 30 stand in the value, and the copies of more share them.
#[derive(Debug, Drop)]
pub struct Description {
    /// The text, 1 to 4,095 bytes.
    bytes: NameBytes<{ Description::IN_VALUE }>,
}

impl Model for Description {
    ghost use Rattle.std.specs.Prelude.{◌≡◌, List, ℕ, None};
    ghost use Rattle.rk_names.specs.Rules.{description_fault};

    ghost Value = { List ℕ };

    ghost view = { λ n. n.bytes };

    ghost invariant = { λ n. description_fault n.bytes ≡ None };
}

impl Description {
    /// The most bytes that it has.
    pub const MAX_LEN: usize = 4_095;

    /// The most bytes that stand in its value.
    pub const IN_VALUE: usize = 30;

    /// The first rule that the bytes break; `None` if `new` would make them a name. It takes no
    /// memory.
    pub fn fault(bytes: &[u8]) -> Option<NameFault>
        ensures { result ≡ description_fault bytes.now }
    {
        if bytes.is_empty() {
            return Some(NameFault::Empty);
        }
        if bytes.len() > Description::MAX_LEN {
            return Some(NameFault::TooLong);
        }
        text_fault(bytes)
    }

    /// A copy of the bytes. Refusals in this order: `Empty`, `TooLong` past 4,095 bytes, `Byte`,
    /// `NoMemory`.
    pub fn new(alloc: Global, bytes: &[u8]) -> Result<Description, NameFault>
        ensures ok { IfOk result (λ n. (n ≡ bytes.now) × (description_fault bytes.now ≡ None)) }
        ensures err { IfErr result (λ f. IsRefusedFor f (description_fault bytes.now)) }
    {
        if let Some(fault) = Description::fault(bytes) {
            return Err(fault);
        }
        Description::from_checked(alloc, bytes).map_err(|_| NameFault::NoMemory)
    }

    /// A copy of bytes in which `fault` finds none, without another look at them. The only refusal
    /// is out of memory.
    #[inline(always)]
    pub fn from_checked(alloc: Global, bytes: &[u8]) -> Result<Description, AllocError>
        requires { description_fault bytes.now ≡ None }
        ensures { IfOk result (λ n. n ≡ bytes.now) }
    {
        Ok(Description {
            bytes: NameBytes::of(alloc, bytes)?,
        })
    }

    /// The bytes that it was made of.
    pub fn as_bytes(&self) -> &[u8]
        ensures bytes { result.now ≡ self.now }
        ensures rule { description_fault self.now ≡ None }
    {
        self.bytes.as_slice()
    }

    /// The same, borrowed.
    pub fn view(&self) -> DescriptionView<'_>
        ensures { result ≡ self.now }
    {
        DescriptionView {
            bytes: self.bytes.as_slice(),
        }
    }
}

impl Clone for Description {
    ghost is_clone = { λ name copy. copy ≡ name };

    fn clone(&self) -> Result<Description, AllocError> {
        Ok(Description {
            bytes: self.bytes.clone()?,
        })
    }
}

/// A description that is still borrowed: the bytes keep the rule of a [`Description`].
#[derive(Debug, Drop)]
pub struct DescriptionView<'a> {
    /// The text, 1 to 4,095 bytes.
    bytes: &'a [u8],
}

impl<'a> Model for DescriptionView<'a> {
    ghost use Rattle.std.specs.Prelude.{◌≡◌, List, ℕ, None};
    ghost use Rattle.rk_names.specs.Rules.{description_fault};

    ghost Value = { List ℕ };

    ghost view = { λ n. n.bytes.now };

    ghost invariant = { λ n. description_fault n.bytes.now ≡ None };
}

impl<'a> DescriptionView<'a> {
    /// The bytes, where they keep the rule; else the first rule that they break. It takes no memory.
    pub fn new(bytes: &'a [u8]) -> Result<DescriptionView<'a>, NameFault>
        ensures { MatchResult result (λ n. (n ≡ bytes.now) × (description_fault bytes.now ≡ None)) (λ f. description_fault bytes.now ≡ Some f) }
    {
        match Description::fault(bytes) {
            Some(fault) => Err(fault),
            None => Ok(DescriptionView { bytes }),
        }
    }

    /// The same once more, which borrows the same bytes.
    #[inline(always)]
    pub fn again(&self) -> DescriptionView<'a>
        ensures { result ≡ self.now }
    {
        DescriptionView { bytes: self.bytes }
    }

    /// The bytes that it was made of.
    pub fn as_bytes(&self) -> &'a [u8]
        ensures bytes { result.now ≡ self.now }
        ensures rule { description_fault self.now ≡ None }
    {
        self.bytes
    }

    /// A copy. The only refusal is out of memory.
    #[inline(always)]
    pub fn to_owned(&self, alloc: Global) -> Result<Description, AllocError>
        ensures { IfOk result (λ n. n ≡ self.now) }
    {
        Description::from_checked(alloc, self.bytes)
    }

    /// What a copy takes of memory: nothing for at most 30 bytes. The only refusal is out of memory.
    #[inline(always)]
    pub fn long(&self, alloc: Global) -> Result<Option<LongBytes>, AllocError>
        ensures { IfOk result (λ long. IsLongOf in_description long self.now) }
    {
        NameBytes::<{ Description::IN_VALUE }>::long(alloc, self.bytes)
    }

    /// A copy for which `long` has taken the memory before.
    #[inline(always)]
    pub fn to_owned_with(&self, long: Option<LongBytes>) -> Description
        requires { IsLongOf in_description long self.now }
        ensures { result ≡ self.now }
    {
        Description {
            bytes: NameBytes::with(self.bytes, long),
        }
    }
}
