//! What is kept of a name.
ghost use Rattle.std.specs.Prelude.{◌≡◌, bytes_eq};

use rk_names::{Description, NameNo, TypeName};

/// A name that live keys have. Its description shares the bytes of the first of them.
#[derive(Drop)]
pub struct Named {
    /// The type of the keys.
    pub typ: TypeName,
    /// Their description, in the bytes of the first of them.
    pub description: Description,
    /// The number that they share.
    pub number: NameNo,
    /// How many they are.
    pub keys: u32,
}

impl Named {
    ghost use Rattle.std.specs.Prelude.{◌≡◌};
    ghost use Rattle.rk_keys.specs.Buckets.{is_of};

    /// Whether it is this name.
    #[inline(always)]
    pub fn is(&self, typ: &[u8], description: &[u8]) -> bool
        ensures { result ≡ is_of typ.now description.now self.now }
    {
        are_same(self.typ.as_bytes(), typ) && are_same(self.description.as_bytes(), description)
    }
}

/// Whether bytes are equal. Four, as those of the type `user`, are compared as one word.
#[inline(always)]
fn are_same(one: &[u8], other: &[u8]) -> bool
    ensures { result ≡ bytes_eq one.now other.now }
{
    match (<[u8; 4]>::try_from(one), <[u8; 4]>::try_from(other)) {
        (Ok(one), Ok(other)) => one == other,
        _ => one == other,
    }
}
