//! For how long a client is waited for.
ghost use Rattle.std.specs.Prelude.{◌≡◌};
ghost use Rattle.rk_daemon.specs.Lull.{begun, fresh, heard, is_over, is_timed, looked};

/// Whether a wait is measured by the clock, and from when on.
#[derive(Clone, Copy, Debug, PartialEq, Eq)]
pub enum Timer {
    /// It is not: the system bounds a single call by itself.
    Off,
    /// It is, from the next look at the clock on.
    On,
    /// It is, from this second on.
    Since(u64),
}

/// For how long a client is waited for: for the rest of a frame, from its first part on, or for the end of a call that a signal has interrupted.
#[derive(Clone, Copy, Debug, PartialEq, Eq)]
pub struct Lull {
    /// For how many seconds at most; 0 for any time.
    limit: u32,
    /// Whether something has come that is not yet replied to: a part of a frame.
    is_amid: bool,
    /// Since when it is waited.
    timer: Timer,
}

impl Lull {
    /// Nothing is waited for yet, at most for so many seconds; 0 for any time.
    #[inline(always)]
    pub fn new(limit: u32) -> Lull
        ensures { result ≡ fresh limit }
    {
        Lull {
            limit,
            is_amid: false,
            timer: Timer::Off,
        }
    }

    /// Something has come. If nothing had before, the rest of its frame is waited for from now on.
    #[inline(always)]
    pub fn hear(&mut self)
        ensures { self.new ≡ heard self.old }
    {
        if !self.is_amid {
            self.is_amid = true;
            self.timer = Timer::On;
        }
    }

    /// A call was made that waits, and more such may follow: all of them are one wait.
    #[inline(always)]
    pub fn begin(&mut self)
        ensures { self.new ≡ begun self.old }
    {
        if self.timer == Timer::Off {
            self.timer = Timer::On;
        }
    }

    /// A reply was written: a new frame is waited for.
    #[inline(always)]
    pub fn end(&mut self)
        ensures { self.new ≡ fresh self.old.limit }
    {
        self.is_amid = false;
        self.timer = Timer::Off;
    }

    /// Whether the clock is to be looked at before the next call.
    #[inline(always)]
    pub fn is_timed(&self) -> bool
        ensures { result ≡ is_timed self.now }
    {
        self.limit > 0 && self.timer != Timer::Off
    }

    /// The clock shows this second; whether it was waited for longer than the limit. The first look begins the time.
    pub fn is_over(&mut self, now: u64) -> bool
        ensures over { result ≡ is_over now self.old }
        ensures looked { self.new ≡ looked now self.old }
    {
        match self.timer {
            Timer::Off => false,
            Timer::On => {
                self.timer = Timer::Since(now);
                false
            }
            Timer::Since(start) => now.saturating_sub(start) > u64::from(self.limit),
        }
    }
}
