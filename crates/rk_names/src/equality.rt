//! Whether two names, two callouts or two payloads are equal: byte by byte.
ghost use Rattle.std.specs.Prelude.{◌==◌};
ghost use Rattle.std.proofs.Common.{rules};
ghost use Rattle.std.specs.Cmp.Rules.{comparing};
ghost use Rattle.std.specs.Cmp.Lexicographic.{pointwise};

use crate::callout::Callout;
use crate::description::Description;
use crate::payload::Payload;
use crate::type_name::TypeName;

impl PartialEq for TypeName {
    ghost eq = { pointwise ◌==◌ };

    ghost laws = { Prim.search (comparing, rules) };

    fn eq(&self, other: &TypeName) -> bool {
        self.as_bytes() == other.as_bytes()
    }
}

impl Eq for TypeName {
    ghost laws = { Prim.search (comparing, rules) };
}

impl PartialEq for Description {
    ghost eq = { pointwise ◌==◌ };

    ghost laws = { Prim.search (comparing, rules) };

    fn eq(&self, other: &Description) -> bool {
        self.as_bytes() == other.as_bytes()
    }
}

impl Eq for Description {
    ghost laws = { Prim.search (comparing, rules) };
}

impl PartialEq for Callout {
    ghost eq = { pointwise ◌==◌ };

    ghost laws = { Prim.search (comparing, rules) };

    fn eq(&self, other: &Callout) -> bool {
        self.as_bytes() == other.as_bytes()
    }
}

impl Eq for Callout {
    ghost laws = { Prim.search (comparing, rules) };
}

impl PartialEq for Payload {
    ghost eq = { pointwise ◌==◌ };

    ghost laws = { Prim.search (comparing, rules) };

    fn eq(&self, other: &Payload) -> bool {
        self.as_bytes() == other.as_bytes()
    }
}

impl Eq for Payload {
    ghost laws = { Prim.search (comparing, rules) };
}
