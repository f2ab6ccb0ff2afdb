//! A name with its hash.
ghost use Rattle.std.specs.Prelude.{◌≡◌, IfOk};
ghost use Rattle.rk_keys.specs.Buckets.{name_hash};

use crate::naming::hash_of;
use rk_names::{Description, DescriptionView, TypeName, TypeView};
use std::alloc::{AllocError, Global};
use std::marker::Model;

/// A name in the bytes of whoever gives it, with its hash, so that an ask takes the hash once for all that it does with its name.
/// [`Keys::hashed`](crate::Keys::hashed) makes it.
#[derive(Debug, Drop)]
pub struct HashedName<'a> {
    /// The type.
    typ: TypeView<'a>,
    /// The description.
    description: DescriptionView<'a>,
    /// With what the name is hashed.
    seed: u64,
    /// Its hash.
    hash: u32,
}

impl<'a> Model for HashedName<'a> {
    ghost use Rattle.std.specs.Prelude.{◌≡◌};
    ghost use Rattle.rk_keys.specs.Names.{Name, name_code};
    ghost use Rattle.rk_keys.specs.Buckets.{name_hash};

    ghost Value = { Name };

    ghost coded = { name_code };

    ghost view = { λ n. record { typ = n.typ; description = n.description } };

    ghost invariant = { λ n. n.hash ≡ name_hash n.seed n.typ n.description };
}

impl<'a> HashedName<'a> {
    /// The name with its hash under this seed.
    #[inline(always)]
    pub(crate) fn new(
        seed: u64,
        typ: TypeView<'a>,
        description: DescriptionView<'a>,
    ) -> HashedName<'a>
        ensures { result ≡ record { typ = typ.entry; description = description.entry } }
    {
        let hash = hash_of(seed, typ.as_bytes(), description.as_bytes());
        HashedName {
            typ,
            description,
            seed,
            hash,
        }
    }

    /// The bytes of the type.
    pub fn typ(&self) -> &[u8]
        ensures { result.now ≡ self.now.typ }
    {
        self.typ.as_bytes()
    }

    /// The bytes of the description.
    pub fn description(&self) -> &[u8]
        ensures { result.now ≡ self.now.description }
    {
        self.description.as_bytes()
    }

    /// A copy of the type, which takes no memory.
    pub fn owned_typ(&self) -> TypeName
        ensures { result ≡ self.now.typ }
    {
        self.typ.to_owned()
    }

    /// A copy of the description. The only refusal is out of memory.
    #[inline(always)]
    pub fn owned_description(&self, alloc: Global) -> Result<Description, AllocError>
        ensures { IfOk result (λ d. d ≡ self.now.description) }
    {
        self.description.to_owned(alloc)
    }

    /// The hash under a seed. It is taken anew only if that is another seed than the name's.
    #[inline(always)]
    pub(crate) fn hash(&self, seed: u64) -> u32
        ensures { result ≡ name_hash seed self.now.typ self.now.description }
    {
        if self.seed == seed {
            self.hash
        } else {
            hash_of(seed, self.typ(), self.description())
        }
    }
}
