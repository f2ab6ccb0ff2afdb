//! The changes of a ring, each as the table of rings takes it, and the tests of rings.
ghost use Rattle.std.specs.Prelude.{◌≡◌};

use crate::kind::RingKind;
use crate::row::Row;
use rk_names::{NameNo, Serial};
use rk_table::{ChangeOnce, Test};

/// Links a key, where it is linked already or there is room for its name.
#[derive(Clone, Copy)]
pub struct Link {
    /// The key that gets a link.
    pub key: Serial,
    /// The number of the key's name.
    pub name: NameNo,
}

impl ChangeOnce<Row> for Link {
    ghost use Rattle.rk_rings.specs.Numbered.{linked_in_room};

    ghost changed = { λ c r. linked_in_room c.key c.name r };

    fn change(self, row: &mut Row) {
        row.link(self.key, self.name);
    }
}

/// Takes out the link of a key.
#[derive(Clone, Copy)]
pub struct Unlink(pub Serial);

impl ChangeOnce<Row> for Unlink {
    ghost use Rattle.rk_rings.specs.Numbered.{unlinked};

    ghost changed = { λ c r. unlinked c.0 r };

    fn change(self, row: &mut Row) {
        row.unlink(self.0);
    }
}

/// User rings of a user.
#[derive(Clone, Copy)]
pub struct IsUserRing(pub u32);

impl Test<Row> for IsUserRing {
    ghost use Rattle.rk_rings.specs.Numbered.{is_user_ring};

    ghost passes = { λ t ring r. is_user_ring t.0 r };

    fn passes(&self, ring: u32, row: &Row) -> bool {
        let _ = ring;
        row.kind() == RingKind::User && row.uid() == self.0
    }
}
