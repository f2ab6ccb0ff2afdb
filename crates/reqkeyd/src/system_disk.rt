//! The disk of the system.
ghost use Rattle.std.specs.Prelude.{None};

use rk_rejoin::{Disk, ReadFault};
use std::fs;
use std::fs::Files;
use std::io::ErrorKind;

/// The files of the system, each of which is read anew.
#[derive(Drop)]
pub struct SystemDisk<'a, R: Files + AllocGlobal> {
    /// The host, whose files these are.
    rt: &'a R,
}

impl<'a, R: Files + AllocGlobal> SystemDisk<'a, R> {
    /// The files of this system. It takes no memory.
    pub fn new(rt: &'a R) -> SystemDisk<'a, R> {
        SystemDisk { rt }
    }
}

impl<'a, R: Files + AllocGlobal> Disk for SystemDisk<'a, R> {
    ghost story = { λ disk. None };

    fn read(&mut self, path: &str) -> Result<Vec<u8>, ReadFault> {
        match fs::read(self.rt, path) {
            Ok(bytes) => Ok(bytes),
            Err(error) if error.kind() == ErrorKind::OutOfMemory => Err(ReadFault::NoMemory),
            Err(_) => Err(ReadFault::Unreadable),
        }
    }
}
