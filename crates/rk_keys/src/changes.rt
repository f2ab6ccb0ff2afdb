//! The changes of one key in its place.
use crate::key::{Condition, Key};
use rk_names::Moment;
use rk_table::ChangeOnce;

/// The key gets its condition, and an expiry if one is given.
#[derive(Drop)]
pub struct Conclude {
    /// What the key has come to.
    pub condition: Condition,
    /// When it expires; `None` leaves the expiry that it has.
    pub expiry: Option<Moment>,
}

impl ChangeOnce<Key> for Conclude {
    ghost use Rattle.rk_keys.specs.Known.{concluded};

    ghost changed = { λ c key. concluded c.condition c.expiry key };

    fn change(self, key: &mut Key) {
        let Conclude { condition, expiry } = self;
        key.condition = condition;
        if expiry.is_some() {
            key.expiry = expiry;
        }
    }
}

/// The key is marked as revoked.
#[derive(Drop)]
pub struct Mark;

impl ChangeOnce<Key> for Mark {
    ghost use Rattle.rk_keys.specs.Known.{marked};

    ghost changed = { λ _ key. marked key };

    fn change(self, key: &mut Key) {
        key.revoked = true;
    }
}

/// The key expires so many seconds on, or never for 0.
#[derive(Drop)]
pub struct Time {
    /// From when the seconds count.
    pub now: Moment,
    /// How many, 0 for never.
    pub seconds: u32,
}

impl ChangeOnce<Key> for Time {
    ghost use Rattle.rk_keys.specs.Known.{timed};

    ghost changed = { λ t key. timed t.now t.seconds key };

    fn change(self, key: &mut Key) {
        key.expiry = if self.seconds == 0 {
            None
        } else {
            Some(self.now.plus(self.seconds))
        };
    }
}
