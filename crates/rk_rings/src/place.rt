//! Rings as asks name them.
ghost use Rattle.std.specs.Prelude.{◌≡◌};

use rk_names::Serial;

/// A ring as an ask names it: 0 for none, a special number, or a serial (keyctl(2), "Key serial numbers"; keyrings(7), "Possession").
#[derive(Clone, Copy, Debug, PartialEq, Eq)]
pub enum Place {
    /// 0: no ring.
    Nowhere,
    /// -1, `KEY_SPEC_THREAD_KEYRING`.
    Thread,
    /// -2, `KEY_SPEC_PROCESS_KEYRING`.
    Process,
    /// -3, `KEY_SPEC_SESSION_KEYRING`.
    Session,
    /// -4, `KEY_SPEC_USER_KEYRING`.
    User,
    /// -8, `KEY_SPEC_REQUESTOR_KEYRING`.
    Requestor,
    /// A positive number.
    Numbered(Serial),
}

impl Place {
    ghost use Rattle.std.specs.Prelude.{◌≡◌};
    ghost use Rattle.rk_rings.specs.Places.{place_named};

    /// The place that a number names; `None` for a negative number that names none.
    pub fn from_number(number: i32) -> Option<Place>
        ensures { result ≡ place_named number }
    {
        match number {
            0 => Some(Place::Nowhere),
            -1 => Some(Place::Thread),
            -2 => Some(Place::Process),
            -3 => Some(Place::Session),
            -4 => Some(Place::User),
            -8 => Some(Place::Requestor),
            _ if number < 0 => None,
            _ => Some(Place::Numbered(Serial::new(number as u32)?)),
        }
    }
}
