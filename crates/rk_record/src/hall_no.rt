//! Which hall.
ghost use Rattle.std.specs.Prelude.{◌≡◌, ◌%◌};
ghost use Rattle.rk_record.specs.HallNumbers.{hall_number};

use rk_names::Serial;

/// Which of the four halls: a client stands in that of its uid, a key and its handler in that of the key's serial.
#[derive(Clone, Copy, Debug, PartialEq, Eq)]
pub enum HallNo {
    /// Hall 0, in which clients are opened.
    Zero,
    /// Hall 1, of the uids with the remainder 1 by 4.
    One,
    /// Hall 2, of those with the remainder 2.
    Two,
    /// Hall 3, of those with the remainder 3.
    Three,
}

impl HallNo {
    /// All four, by rising number.
    pub const ALL: [HallNo; 4] = [HallNo::Zero, HallNo::One, HallNo::Two, HallNo::Three];

    /// The hall in which a user's clients stand: the remainder of its uid by 4.
    pub fn of_uid(uid: u32) -> HallNo
        ensures { hall_number result ≡ uid % 4 }
    {
        match uid % 4 {
            0 => HallNo::Zero,
            1 => HallNo::One,
            2 => HallNo::Two,
            _ => HallNo::Three,
        }
    }

    /// The hall that has drawn a serial: its remainder by 4.
    pub fn of_serial(serial: Serial) -> HallNo
        ensures { hall_number result ≡ serial % 4 }
    {
        HallNo::of_uid(serial.get())
    }

    /// Its number, 0 to 3.
    pub fn number(self) -> u8
        ensures { result ≡ hall_number self }
    {
        match self {
            HallNo::Zero => 0,
            HallNo::One => 1,
            HallNo::Two => 2,
            HallNo::Three => 3,
        }
    }
}
