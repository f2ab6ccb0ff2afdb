//! How a launch was brought to its end whose command another one followed.
ghost use Rattle.std.specs.Prelude.{◌≡◌};
ghost use Rattle.rk_child.specs.Driving.{later_of};

use rk_devices::Driven;

/// What is reported of a launch whose command another one followed: of that one, where it was started.
pub fn later(first: Driven, second: Driven) -> Driven
    ensures { result ≡ later_of first second }
{
    match second {
        Driven::NotStarted | Driven::NotMade(_) | Driven::NoMemory | Driven::StartFailed => first,
        _ => second,
    }
}
