//! Counts that stay at the greatest.
ghost use Rattle.std.specs.Prelude.{◌≡◌};
ghost use Rattle.rk_devices.specs.Counts.{Rose, raised};

/// One more; the greatest count stays.
pub fn one_more(count: u64) -> u64
    ensures is { result ≡ raised count }
    ensures rose { Rose count result }
{
    if count < u64::MAX { count + 1 } else { count }
}
