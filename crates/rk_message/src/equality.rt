//! Whether two asks, or two replies, are equal: by their derived `==`, which compares kind and fields.

ghost use Rattle.std.specs.Prelude.{◌≡◌, ◌↔◌, ◌==◌, IsTrue};
ghost use Rattle.std.proofs.Common.{rules};
ghost use Rattle.std.specs.Cmp.Rules.{comparing};
ghost use Rattle.std.specs.Cmp.Lexicographic.{pointwise};

use crate::ask::Ask;
use crate::reply::{Reply, ReplyBytes};

impl PartialEq for ReplyBytes {
    ghost eq = { pointwise ◌==◌ };

    ghost laws = { Prim.search (comparing, rules) };

    fn eq(&self, other: &ReplyBytes) -> bool {
        self.as_bytes() == other.as_bytes()
    }
}

impl Eq for ReplyBytes {
    ghost laws = { Prim.search (comparing, rules) };
}

impl Ask {
    /// Whether the two are equal, field by field.
    pub fn equals(&self, other: &Ask) -> bool
        ensures { IsTrue result ↔ (self.now ≡ other.now) }
    {
        self == other
    }
}

impl Reply {
    /// Whether the two are equal, field by field.
    pub fn equals(&self, other: &Reply) -> bool
        ensures { IsTrue result ↔ (self.now ≡ other.now) }
    {
        self == other
    }
}
