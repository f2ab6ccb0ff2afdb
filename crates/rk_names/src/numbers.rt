//! What is a number: serials, moments, sessions, and the numbers of names.
ghost use Rattle.std.specs.Prelude.{◌≡◌, ◌≤◌};

use std::marker::Model;

/// A serial of a key or a ring: 1 to 2,147,483,647 (keyrings(7), "Key serial number").
#[derive(Clone, Copy, Debug, PartialEq, Eq, PartialOrd, Ord, Hash)]
pub struct Serial {
    /// The number, 1 to 2,147,483,647.
    number: u32,
}

impl Model for Serial {
    ghost use Rattle.std.specs.Prelude.{◌≤◌, ℕ};

    ghost Value = { ℕ };

    ghost view = { λ s. s.number };

    ghost invariant = { λ s. (1 ≤ s.number) × (s.number ≤ 2147483647) };

    ghost inverse = { λ n. record { number = n } };
}

impl Serial {
    ghost use Rattle.std.specs.Prelude.{◌≡◌, ◌≤◌};
    ghost use Rattle.rk_names.specs.Numbers.{serial_of};

    /// `None` outside 1 to 2,147,483,647.
    pub fn new(number: u32) -> Option<Serial>
        ensures { result ≡ serial_of number }
    {
        if number == 0 || number > 2_147_483_647 {
            None
        } else {
            Some(Serial { number })
        }
    }

    /// The number that it was made of.
    pub fn get(self) -> u32
        ensures number { result ≡ self }
        ensures range { (1 ≤ self) × (self ≤ 2147483647) }
    {
        self.number
    }
}

/// A time in seconds, by the caller's clock. Nothing is assumed of a clock: a later step may have
/// an earlier moment.
#[derive(Clone, Copy, Debug, PartialEq, Eq, PartialOrd, Ord, Hash)]
pub struct Moment(pub u64);

impl Model for Moment {
    ghost use Rattle.std.specs.Prelude.{ℕ};

    ghost Value = { ℕ };

    ghost view = { λ m. m.0 };

    ghost inverse = { λ n. record { 0 = n } };
}

impl Moment {
    ghost use Rattle.std.specs.Prelude.{◌≡◌};
    ghost use Rattle.rk_names.specs.Numbers.{moment_plus};

    /// The moment so many seconds on, at most the greatest u64.
    pub fn plus(self, seconds: u32) -> Moment
        ensures { result ≡ moment_plus self seconds }
    {
        Moment(self.0.saturating_add(u64::from(seconds)))
    }
}

/// The number of a name. Live keys share one exactly if their type and description are equal, so
/// that a ring can compare names without reading them.
#[derive(Clone, Copy, Debug, PartialEq, Eq, PartialOrd, Ord, Hash)]
pub struct NameNo(pub u32);

impl Model for NameNo {
    ghost use Rattle.std.specs.Prelude.{ℕ};

    ghost Value = { ℕ };

    ghost view = { λ n. n.0 };

    ghost inverse = { λ n. record { 0 = n } };
}

/// Who asks: a client by the number of its connection, or the handler that makes a key, by that key.
#[derive(Clone, Copy, Debug, PartialEq, Eq, PartialOrd, Ord, Hash)]
pub enum SessionId {
    /// A client, by the number of its connection.
    Client(u32),
    /// A handler, by the serial of the key that it makes.
    Handler(Serial),
}
