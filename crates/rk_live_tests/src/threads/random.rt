//! What clients ask at random: the same in every run.
ghost use Rattle.std.specs.Prelude.{◌<◌};

use crate::asks::{add, find, request};
use rk_message::AskView;

/// The names that are asked for, one letter each, fewer than a user may have keys.
const NAMES: &[u8; 64] = b"0123456789:;<=>?@ABCDEFGHIJKLMNOPQRSTUVWXYZ[\\]^_`abcdefghijklmno";

/// A key is picked among about so many that were made last.
const LAST: u8 = 32;

/// How far the serials of a hall are from one another.
const STRIDE: u32 = 4;

const SESSION_RING: i32 = -3;

const USER_RING: i32 = -4;

/// Numbers that seem random: Knuth's linear congruence, of which the upper byte is taken.
#[derive(Drop)]
pub struct Numbers(pub u64);

impl Numbers {
    /// The next one, below the bound.
    fn below(&mut self, bound: u8) -> u8
        requires { 0 < bound }
    {
        let next = self.0.wrapping_mul(6_364_136_223_846_793_005);
        self.0 = next.wrapping_add(1_442_695_040_888_963_407);
        let [upper, ..] = self.0.to_be_bytes();
        upper % bound
    }

    /// What is asked next, where this is the greatest serial that the client was told: some asks come more often than others. `None` if a name broke
    /// its rule.
    pub fn ask(&mut self, newest: u32) -> Option<AskView<'static>> {
        let first = usize::from(self.below(64));
        let names = &NAMES[..];
        let name = names.get(first..first + 1).unwrap_or(b"0");
        let back = u32::from(self.below(LAST)) * STRIDE;
        let key = i32::try_from(newest.saturating_sub(back)).unwrap_or(0);
        match self.below(16) {
            0..=4 => add(name),
            5 => request(name),
            6 => find(name),
            7 | 8 => Some(AskView::Read { key }),
            9 | 10 => Some(AskView::Describe { key }),
            11 | 12 => Some(AskView::Link {
                key,
                ring: USER_RING,
            }),
            13 => Some(AskView::Unlink {
                key,
                ring: SESSION_RING,
            }),
            14 => Some(AskView::Revoke { key }),
            _ => Some(AskView::Clear { ring: USER_RING }),
        }
    }
}
