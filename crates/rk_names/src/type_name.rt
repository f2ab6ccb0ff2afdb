//! The type of a key.
ghost use Rattle.std.specs.Prelude.{◌≡◌, IfOk, IfErr, None, Some, MatchResult};
ghost use Rattle.rk_names.specs.Rules.{type_fault};

use crate::errors::NameFault;
use crate::few_bytes::FewBytes;
use crate::text::text_fault;
use std::alloc::AllocError;
use std::marker::Model;

/// The type of a key, as `user`: 1 to 31 bytes of UTF-8 without a zero byte, the first no dot
/// (add_key(2), "DESCRIPTION" and "ERRORS"). It lies in the value, and takes no memory.
#[derive(Debug, Drop)]
pub struct TypeName {
    /// The text, 1 to 31 bytes.
    bytes: FewBytes<31>,
}

impl Model for TypeName {
    ghost use Rattle.std.specs.Prelude.{◌≡◌, List, ℕ, None};
    ghost use Rattle.rk_names.specs.Rules.{type_fault};

    ghost Value = { List ℕ };

    ghost view = { λ n. n.bytes };

    ghost invariant = { λ n. type_fault n.bytes ≡ None };
}

impl TypeName {
    /// The most bytes that it has.
    pub const MAX_LEN: usize = 31;

    /// The first rule that the bytes break; `None` if `new` makes them a name.
    pub fn fault(bytes: &[u8]) -> Option<NameFault>
        ensures { result ≡ type_fault bytes.now }
    {
        if bytes.is_empty() {
            return Some(NameFault::Empty);
        }
        if bytes.len() > TypeName::MAX_LEN {
            return Some(NameFault::TooLong);
        }
        if bytes[0] == b'.' {
            return Some(NameFault::Dot);
        }
        text_fault(bytes)
    }

    /// A copy of the bytes, which takes no memory. Refusals in this order: `Empty`, `TooLong` past 31 bytes, `Dot`, `Byte`.
    pub fn new(bytes: &[u8]) -> Result<TypeName, NameFault>
        ensures ok { IfOk result (λ n. (n ≡ bytes.now) × (type_fault bytes.now ≡ None)) }
        ensures err { IfErr result (λ f. type_fault bytes.now ≡ Some f) }
    {
        match TypeName::fault(bytes) {
            Some(fault) => Err(fault),
            None => Ok(TypeName::from_checked(bytes)),
        }
    }

    /// A copy of bytes in which `fault` finds none, without another look at them. It takes no memory.
    pub fn from_checked(bytes: &[u8]) -> TypeName
        requires { type_fault bytes.now ≡ None }
        ensures { result ≡ bytes.now }
    {
        TypeName {
            bytes: FewBytes::of(bytes),
        }
    }

    /// The bytes that it was made of.
    pub fn as_bytes(&self) -> &[u8]
        ensures bytes { result.now ≡ self.now }
        ensures rule { type_fault self.now ≡ None }
    {
        self.bytes.as_slice()
    }

    /// The same, borrowed.
    pub fn view(&self) -> TypeView<'_>
        ensures { result ≡ self.now }
    {
        TypeView {
            bytes: self.bytes.as_slice(),
        }
    }
}

impl Clone for TypeName {
    ghost is_clone = { λ name copy. copy ≡ name };

    fn clone(&self) -> Result<TypeName, AllocError> {
        Ok(TypeName {
            bytes: self.bytes.clone()?,
        })
    }
}

/// A type that is still borrowed: the bytes keep the rule of a [`TypeName`].
#[derive(Debug, Drop)]
pub struct TypeView<'a> {
    /// The text, 1 to 31 bytes.
    bytes: &'a [u8],
}

impl<'a> Model for TypeView<'a> {
    ghost use Rattle.std.specs.Prelude.{◌≡◌, List, ℕ, None};
    ghost use Rattle.rk_names.specs.Rules.{type_fault};

    ghost Value = { List ℕ };

    ghost view = { λ n. n.bytes.now };

    ghost invariant = { λ n. type_fault n.bytes.now ≡ None };
}

impl<'a> TypeView<'a> {
    /// The bytes, where they keep the rule; else the first rule that they break. It takes no memory.
    pub fn new(bytes: &'a [u8]) -> Result<TypeView<'a>, NameFault>
        ensures { MatchResult result (λ n. (n ≡ bytes.now) × (type_fault bytes.now ≡ None)) (λ f. type_fault bytes.now ≡ Some f) }
    {
        match TypeName::fault(bytes) {
            Some(fault) => Err(fault),
            None => Ok(TypeView { bytes }),
        }
    }

    /// The same once more, which borrows the same bytes.
    #[inline(always)]
    pub fn again(&self) -> TypeView<'a>
        ensures { result ≡ self.now }
    {
        TypeView { bytes: self.bytes }
    }

    /// The bytes that it was made of.
    pub fn as_bytes(&self) -> &'a [u8]
        ensures bytes { result.now ≡ self.now }
        ensures rule { type_fault self.now ≡ None }
    {
        self.bytes
    }

    /// A copy, which takes no memory.
    pub fn to_owned(&self) -> TypeName
        ensures { result ≡ self.now }
    {
        TypeName::from_checked(self.bytes)
    }
}
