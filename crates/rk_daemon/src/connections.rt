//! How many connections there are.

use std::sync::atomic::{AtomicU32, Ordering};

/// How many connections have been accepted that are not yet served to their end, and how many of them a worker serves. Threads count here without a lock.
#[derive(Drop)]
pub struct Connections {
    /// The connections that are not yet served to their end.
    open: AtomicU32,
    /// How many of them a worker serves.
    served: AtomicU32,
}

impl Connections {
    /// There are none.
    pub fn new() -> Connections {
        Connections {
            open: AtomicU32::new(0),
            served: AtomicU32::new(0),
        }
    }

    /// One more was accepted; how many there were before.
    pub fn come(&self) -> u32 {
        self.open.fetch_add(1, Ordering::Relaxed)
    }

    /// A worker begins to serve one.
    pub fn begin(&self) {
        self.served.fetch_add(1, Ordering::Relaxed);
    }

    /// One was served to its end.
    pub fn go(&self) {
        self.served.fetch_sub(1, Ordering::Relaxed);
        self.open.fetch_sub(1, Ordering::Relaxed);
    }

    /// How many there are.
    pub fn open(&self) -> u32 {
        self.open.load(Ordering::Relaxed)
    }

    /// How many of them are served.
    pub fn served(&self) -> u32 {
        self.served.load(Ordering::Relaxed)
    }
}
