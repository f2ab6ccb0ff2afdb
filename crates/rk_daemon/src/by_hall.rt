//! One of each for a hall.
ghost use Rattle.std.specs.Prelude.{◌≡◌};
ghost use Rattle.rk_daemon.specs.ByHall.{of_hall};

use rk_hall::HallNo;

/// One of each for a hall.
#[derive(Drop)]
pub struct ByHall<T: Drop> {
    /// That of hall 0.
    pub zero: T,
    /// That of hall 1.
    pub one: T,
    /// That of hall 2.
    pub two: T,
    /// That of hall 3.
    pub three: T,
}

impl<T: Drop> ByHall<T> {
    ghost use Rattle.std.specs.Prelude.{◌≡◌};
    ghost use Rattle.rk_daemon.specs.ByHall.{of_hall};

    /// That of this hall.
    pub fn of(&self, hall: HallNo) -> &T
        ensures { result.now ≡ of_hall hall self.now }
    {
        match hall {
            HallNo::Zero => &self.zero,
            HallNo::One => &self.one,
            HallNo::Two => &self.two,
            HallNo::Three => &self.three,
        }
    }
}
